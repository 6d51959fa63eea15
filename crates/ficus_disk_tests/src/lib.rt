//! Tests of the disks in memory, by tables: what a fuse leaves, where calls fail, and what is recorded.
#![tactic(auto)]

#[cfg(test)]
mod failing;
#[cfg(test)]
mod fuses;
#[cfg(test)]
mod steps;
#[cfg(test)]
mod traces;
#[cfg(test)]
mod undoing;
