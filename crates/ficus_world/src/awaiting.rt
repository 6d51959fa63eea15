ghost use Rattle.std.specs.Prelude.{◌≡◌, ◌-◌, IfNone, IfSome, Some, None, length, slice_set};
ghost use Rattle.ficus_ids.specs.Members.{IsMember};
ghost use Rattle.ficus_opening.specs.declared.member.Member.{Member as MemberValue};
ghost use Rattle.ficus_replica.specs.declared.replica.Asked.{Asked as AskedValue};
ghost use Rattle.ficus_runs.specs.Numbered.{IsNumbered};
ghost use Rattle.ficus_world.specs.Hearing.{Awaits, awaiting};
ghost use Rattle.ficus_world.specs.Moves.{with_member};

use crate::World;
use crate::group::Group;
use ficus_keeper::Keep;
use ficus_opening::Member;
use ficus_outside::Link;
use ficus_replica::Asked;

impl<K: Keep + Drop, L: Link + Drop> World<K, L> {
    /// The member of this number waits for the answer to this ask, or for none, and holds no piece of an answer. So an
    /// ask that was noted outlives its process, and pieces are given up of an answer that isn't taken whole. Nothing is
    /// asked of the disks, and no event is stored.
    pub fn await_answer(&mut self, number: u8, ask: Option<Asked>)
        requires member { IsMember (length self.old.whole.members) number }
        ensures awaits { (was : MemberValue) → IsNumbered self.old.whole.members number was
            → self.new.whole ≡ with_member self.old.whole number (awaiting was ask) }
        ensures stables { self.new.stables ≡ self.old.stables }
    {
        self.group.await_answer(number, ask);
    }

    /// The ask whose answer the member of this number waits for, of which it holds no piece yet. `None` comes exactly
    /// where there is none, where it holds a piece, and where the number is no member's or the member is down.
    pub fn open_ask(&self, number: u8) -> Option<Asked>
        ensures some { IfSome result (Awaits self.now.whole number) }
        ensures none { IfNone result ((ask : AskedValue) → Awaits self.now.whole number ask → ⊥) }
    {
        match self.group.up(number) {
            Ok(member) => awaited(member),
            Err(_) => None,
        }
    }
}

impl<L: Link + Drop> Group<L> {
    // The member of this number waits for the answer to this ask, and holds no piece of one.
    fn await_answer(&mut self, number: u8, ask: Option<Asked>)
        requires member { IsMember (length self.old.members) number }
        ensures awaits { (was : MemberValue) → IsNumbered self.old.members number was
            → self.new ≡ with_member self.old number (awaiting was ask) }
    {
        wait_for(&mut self.members, number, ask);
    }
}

// The ask that waits for its answer, where no piece of it is held.
fn awaited(member: &Member) -> Option<Asked>
    ensures asks { IfSome result (λ ask. member.now.replica.ask ≡ Some ask) }
    ensures none_held { IfSome result (λ _. member.now.parts ≡ None) }
    ensures none { IfNone result ((ask : AskedValue) → member.now.replica.ask ≡ Some ask → member.now.parts ≡ None
        → ⊥) }
{
    match &member.parts {
        Some(_) => None,
        None => member.replica.ask,
    }
}

// Has the member of this number wait for the answer to this ask, and hold no piece of one.
fn wait_for(members: &mut Vec<Member>, number: u8, ask: Option<Asked>)
    requires { IsMember (length members.old.items) number }
    ensures { (was : MemberValue) → IsNumbered members.old.items number was
        → members.new.items ≡ slice_set members.old.items (number - 1) (awaiting was ask) }
{
    let member = &mut members[number as usize - 1];
    member.replica.ask = ask;
    member.parts = None;
}
