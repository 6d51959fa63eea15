//! Tests of the source and the sink over the standard streams, of which no clause says what they give and show; over a
//! system that tells what it is asked; and of the links in memory.
#![tactic(auto)]

#[cfg(test)]
mod answers;
#[cfg(test)]
mod links;
#[cfg(test)]
mod noted;
#[cfg(test)]
mod noting;
#[cfg(test)]
mod streams;
#[cfg(test)]
mod system;
