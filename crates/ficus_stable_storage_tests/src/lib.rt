//! Tests of what a pair of disks holds of a replica, over both keepers and the disks in memory: what is opened after
//! saves of each event, after saves that a fuse stops, where a call of a disk fails, and of what another keeper or
//! nobody wrote.
#![tactic(auto)]

#[cfg(test)]
mod days;
#[cfg(test)]
mod faults;
#[cfg(test)]
mod kept;
#[cfg(test)]
mod records;
#[cfg(test)]
mod saves;
#[cfg(test)]
mod stops;
