//! Tests of the scripts of members on machines of their own, and of the texts of their answers.
#![tactic(auto)]

#[cfg(test)]
mod answers;
#[cfg(test)]
mod scripts;
