//! Whether a history is plain.
ghost use Rattle.std.specs.Prelude.{◌↔◌, IsTrue};
ghost use Rattle.ficus_ids.specs.Members.{IsMember};
ghost use Rattle.ficus_why.specs.Plain.{IsPlain};

use crate::event::actor_of;
use ficus_model::History;

/// Whether each event of the history is of a replica from 1 to 8, as in each history that a world stores. It takes one
/// walk.
pub fn is_plain(history: &History) -> bool
    ensures { IsTrue result ↔ IsPlain history.now.events }
{
    for position in 0..history.len() {
        match history.get(position) {
            Some(event) => {
                if !is_replica(actor_of(event)) {
                    return false;
                }
            }
            None => unreachable!(),
        }
    }
    true
}

fn is_replica(number: u8) -> bool
    ensures { IsTrue result ↔ IsMember 8 number }
{
    1 <= number && number <= 8
}
