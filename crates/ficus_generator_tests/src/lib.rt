//! Tests of the script that follows from a number, against scripts that another program made by the same rules.
#![tactic(auto)]

#[cfg(test)]
mod scripts;
