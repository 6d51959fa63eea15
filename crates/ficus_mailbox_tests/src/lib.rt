//! Tests of the names of messages, and of the mailboxes in memory and over folders of the system.
#![tactic(auto)]

#[cfg(test)]
mod folders;
#[cfg(test)]
mod in_memory;
#[cfg(test)]
mod names;
