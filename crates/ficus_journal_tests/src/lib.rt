//! Tests of the keeper of records over the disks in memory: what is kept after many saves, after saves that a fuse
//! stops, after a disk was cut short, and of what the keeper of two slots left.
#![tactic(auto)]

#[cfg(test)]
mod records;
#[cfg(test)]
mod saves;
