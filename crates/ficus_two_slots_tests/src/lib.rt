//! Tests of the keeper of two slots over the disks in memory: what is kept after saves that a fuse stops.
#![tactic(auto)]

#[cfg(test)]
mod saves;
