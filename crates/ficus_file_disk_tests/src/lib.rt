//! Tests of the disk over a file, of which no clause says that the calls on a runtime are those that it names: over the
//! system's own files, and over a system that notes what it is asked, and fails.
#![tactic(auto)]

#[cfg(test)]
mod calls;
#[cfg(test)]
mod elsewhere;
#[cfg(test)]
mod files;
mod note;
#[cfg(test)]
mod noted;
#[cfg(test)]
mod system;
#[cfg(test)]
mod telling;
#[cfg(test)]
mod told;
