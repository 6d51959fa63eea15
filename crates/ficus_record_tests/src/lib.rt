//! Tests of records with ample memory: that those of days of two replicas are read and applied, that bytes which are
//! short of a record or go on behind one are found to be none, and which records fit one replica, by a table. No clause
//! says it: each leaves it free to want memory, and says by definitions alone what fits.
#![tactic(auto)]

#[cfg(test)]
mod days;
#[cfg(test)]
mod fitting;
#[cfg(test)]
mod steps;
