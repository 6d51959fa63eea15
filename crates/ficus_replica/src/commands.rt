use crate::effect::tell_name;
use crate::{Next, Replica};
use ficus_commands::{Change, Look, Told};
use ficus_ids::Refusal;
use ficus_model::Op;
use std::alloc::Global;

impl Replica {
    ghost use Rattle.std.specs.Prelude.{◌-◌, ◌^◌, ◌<◌, IfOk};
    ghost use Rattle.ficus_durable_state.specs.Saved.{FitsImage};
    ghost use Rattle.ficus_deciding.specs.View.{tables_view};
    ghost use Rattle.ficus_commands.specs.Change.{HasFitPaths};
    ghost use Rattle.ficus_commands.specs.declared.change.Change.{Change as ChangeValue};
    ghost use Rattle.ficus_rules.specs.Change.{ChangeAnswer};
    ghost use Rattle.ficus_replica.specs.Change.{ChangeGives};
    ghost use Rattle.ficus_replica.specs.Look.{LookGives};
    ghost use Rattle.ficus_replica.specs.Makes.{IsNoted};
    ghost use Rattle.ficus_record.specs.declared.record.Record.TheVariants.{Change as Noted};

    /// The replica after the change, and which operation it is, or why it is refused. The record of the operation makes
    /// the same of what was saved.
    pub fn change(&self, alloc: Global, change: &Change) -> Result<Next, Refusal>
        requires new { HasFitPaths change.now }
        requires fits { FitsImage self.now.saved }
        requires generation { self.now.saved.generation < 2 ^ 63 - 1 }
        ensures gives { ChangeGives self.now change.now result }
        ensures fits { IfOk result (λ next. FitsImage next.replica.saved) }
        ensures noted { IfOk result (λ next. IsNoted self.now.saved (Noted next.op) next.replica.saved) }
    {
        self.done(alloc, ficus_deciding::change(alloc, &self.saved, change))
    }

    // The replica once the operation is done that a change is answered with, and the operation.
    pub(crate) fn done(&self, alloc: Global, answer: Result<Op, Refusal>) -> Result<Next, Refusal>
        requires change { (change : ChangeValue) × ChangeAnswer (tables_view self.now.saved) change answer }
        requires fits { FitsImage self.now.saved }
        requires generation { self.now.saved.generation < 2 ^ 63 - 1 }
        ensures gives { (change : ChangeValue) → ChangeAnswer (tables_view self.now.saved) change answer
            → ChangeGives self.now change result }
        ensures fits { IfOk result (λ next. FitsImage next.replica.saved) }
        ensures noted { IfOk result (λ next. IsNoted self.now.saved (Noted next.op) next.replica.saved) }
    {
        let op = answer?;
        tell_name(&op);
        Ok(self.applied(alloc, op)?)
    }

    /// What the look tells, or why it is refused.
    pub fn look(&self, alloc: Global, look: &Look) -> Result<Told, Refusal>
        requires { FitsImage self.now.saved }
        ensures { LookGives self.now look.now result }
    {
        ficus_deciding::look(alloc, &self.saved, look)
    }
}
