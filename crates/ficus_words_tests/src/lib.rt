//! Tests of which words ask for which mode.
#![tactic(auto)]

#[cfg(test)]
mod member_modes;
#[cfg(test)]
mod modes;
