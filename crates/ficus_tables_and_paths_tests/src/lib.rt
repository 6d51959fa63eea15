//! Tests of what no clause says of the tables and of paths, and no script brings about so far: how high the nodes of a
//! list stand, that each call that may want memory succeeds with ample memory, what an index finds after many changes,
//! and what becomes of entries of which some are removed.
#![tactic(auto)]

#[cfg(test)]
mod entries;
#[cfg(test)]
mod fault;
#[cfg(test)]
mod lists;
#[cfg(test)]
mod merging;
#[cfg(test)]
mod paths;
#[cfg(test)]
mod rows;
