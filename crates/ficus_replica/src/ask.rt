use crate::{Asked, Replica};
use ficus_durable_state::Saved;
use ficus_ids::Memory;

impl Replica {
    ghost use Rattle.std.specs.Prelude.{◌≡◌, ◌≢◌, ◌-◌, ◌^◌, ◌<◌, List, IfOk};
    ghost use Rattle.ficus_durable_state.specs.Saved.{FitsImage};
    ghost use Rattle.ficus_ids.specs.Members.{IsMember};
    ghost use Rattle.ficus_model.specs.Lawful.{Volume};
    ghost use Rattle.ficus_model.specs.declared.event.Event.{Event};
    ghost use Rattle.ficus_model.specs.declared.event.Event.TheVariants.{Ask};
    ghost use Rattle.ficus_replica.specs.Ask.{AskGives};
    ghost use Rattle.ficus_replica.specs.Makes.{IsNoted, once_more};
    ghost use Rattle.ficus_replica.specs.SavedOf.{StandsFor, StandsAfter};
    ghost use Rattle.ficus_record.specs.declared.record.Record.TheVariants.{Ask as Noted};

    /// Asks another member for its state. The answer to an earlier ask is no longer taken.
    pub fn ask(&self, to: u8) -> Result<Replica, Memory>
        requires member { IsMember self.now.saved.members to }
        requires other { to ≢ self.now.saved.me }
        requires fits { FitsImage self.now.saved }
        requires generation { self.now.saved.generation < 2 ^ 63 - 1 }
        ensures gives { IfOk result (AskGives self.now to) }
        ensures fits { IfOk result (λ replica. FitsImage replica.saved) }
        ensures noted { IfOk result (λ replica. IsNoted self.now.saved Noted replica.saved) }
        ensures stands { (volume : Volume) (H : List Event) → StandsFor volume H self.now.saved.me self.now
            → IfOk result (StandsAfter volume H self.now.saved.me (Ask self.now.saved.me to)) }
    {
        let saved = self.saved_again()?;
        let number = saved.generation;
        Ok(Replica {
            saved,
            ask: Some(Asked { to, number }),
        })
    }

    /// What is saved once more, with nothing else changed.
    pub(crate) fn saved_again(&self) -> Result<Saved, Memory>
        requires { self.now.saved.generation < 2 ^ 63 - 1 }
        ensures { IfOk result (λ saved. saved ≡ once_more self.now.saved) }
    {
        Ok(self.saved_with(self.saved.entries.copy()?, self.saved.files.copy()?))
    }
}
