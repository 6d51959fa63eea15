//! Tests of what is asked of a stored history: which pairs of updates clash, of which scripts show the least of each
//! file alone, and which answers an asker still takes.
#![tactic(auto)]

#[cfg(test)]
mod asking;
#[cfg(test)]
mod histories;
