//! Tests of messages, pieces, images and tables as bytes, by vectors.
#![tactic(auto)]

#[cfg(test)]
mod images;
#[cfg(test)]
mod messages;
#[cfg(test)]
mod pieces;
#[cfg(test)]
mod tables;
#[cfg(test)]
mod variants;
