//! Tests of the tags of volumes, and of messages behind them.
#![tactic(auto)]

#[cfg(test)]
mod envelopes;
#[cfg(test)]
mod tags;
