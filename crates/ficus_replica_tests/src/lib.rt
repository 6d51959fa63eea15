//! Tests of what a replica refuses where no script brings it about, each refusal by its variant with ample memory, and
//! of each call that can want memory, that with ample memory it answers; and of the numbers and words of refusals. What
//! scripts bring about is shown by the examples.
#![tactic(auto)]

#[cfg(test)]
mod calls;
#[cfg(test)]
mod fault;
#[cfg(test)]
mod makes;
#[cfg(test)]
mod refusals;
#[cfg(test)]
mod scenes;
#[cfg(test)]
mod steps;
#[cfg(test)]
mod tests;
