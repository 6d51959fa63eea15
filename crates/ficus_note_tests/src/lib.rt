//! Tests of the note of an open ask over disks in memory.
#![tactic(auto)]

#[cfg(test)]
mod notes;
