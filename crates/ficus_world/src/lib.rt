//! A world of replicas that exchange messages over a link and save what they do on their disks: one command after the
//! other, each made of atomic events of one replica.
#![tactic(auto)]

mod awaiting;
mod checking;
mod exchange;
mod generations;
mod group;
mod hearing;
mod laws;
pub mod machines;
mod mails;
mod member;
mod opening;
mod pairs;
mod post;
mod restart;
mod saving;
mod serving;
mod settled;
mod step;
mod taking;
mod world;

pub use generations::{
    commands_are_chains, equal_generations_are_equal_lists, equal_generations_save_the_same,
    pieces_were_served, taken_answers_were_served,
};
pub use laws::{
    disks_stand, knowledge_is_held, one_world, pending_events_may_come, refusals_save_nothing,
};
pub use world::{DEFAULT_BYTES, DEFAULT_IDS, World};
