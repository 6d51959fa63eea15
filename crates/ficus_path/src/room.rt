ghost use Rattle.std.specs.Prelude.{◌≡◌, ◌↔◌, IsTrue, None, IfOk};
ghost use Rattle.ficus_path.specs.Path.{IsPart};

use crate::path::Part;
use ficus_ids::Memory;
use std::marker::Model;

/// Room for a part in the value itself. Contracts see the part, and a blank where there is none.
#[derive(Drop)]
pub struct Room {
    part: Option<Part>,
}

impl Model for Room {
    ghost use Rattle.std.specs.Prelude.{unwrap_or};
    ghost use Rattle.ficus_path.specs.declared.path.Part.{Part};
    ghost use Rattle.ficus_path.specs.Path.{blank};

    ghost Value = { Part };

    ghost view = { λ r. unwrap_or r.part blank };
}

impl Default for Room {
    fn default() -> Room {
        Room { part: None }
    }
}

impl Room {
    /// Room with the part in it.
    pub(crate) fn of(part: Part) -> Room
        ensures { result ≡ part }
    {
        Room { part: Some(part) }
    }

    /// Whether the part names no target.
    pub(crate) fn is_without_target(&self) -> bool
        ensures { IsTrue result ↔ (self.now.target ≡ None) }
    {
        match &self.part {
            Some(part) => part.target.is_none(),
            None => true,
        }
    }

    /// The part once more.
    pub(crate) fn part(&self) -> Result<Part, Memory>
        requires { IsPart self.now }
        ensures { IfOk result (λ part. part ≡ self.now) }
    {
        match &self.part {
            Some(part) => part.copy(),
            None => unreachable!(),
        }
    }
}
