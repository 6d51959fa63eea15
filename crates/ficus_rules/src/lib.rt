//! What each command answers, over what is shown.
#![tactic(auto)]

mod laws;

pub use laws::{
    entries_are_walked, one_change, one_look, resolvers_agree, same_shown_same_look,
    same_view_same_change,
};
