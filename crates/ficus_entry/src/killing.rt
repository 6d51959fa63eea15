use crate::Entries;
use ficus_ids::Id;

impl Entries {
    ghost use Rattle.std.specs.Prelude.{◌≤◌, Contains};
    ghost use Rattle.ficus_ids.specs.Rising.{IsRisingBy};
    ghost use Rattle.ficus_ids.specs.declared.id.Id.{Id as IdValue};
    ghost use Rattle.ficus_entry.specs.Entry.{IsRising};
    ghost use Rattle.ficus_entry.specs.Kill.{HoldsLive, AreKilled};

    /// Removes the live entries with these identifiers, as `kill` does each. Takes no memory.
    pub fn kill_all(&mut self, ids: &[Id], by: u8)
        requires live { (id : IdValue) → Contains ids.now id → HoldsLive self.old id }
        requires rising { IsRisingBy (λ (id : IdValue). id) ids.now }
        requires at_least { 1 ≤ by }
        requires at_most { by ≤ 8 }
        ensures killed { AreKilled self.old self.new ids.now by }
        ensures rising { IsRising self.new }
    {
        let _count = self.len();
        for id in ids {
            self.kill(*id, by);
        }
    }
}
