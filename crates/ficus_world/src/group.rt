ghost use Rattle.std.specs.Prelude.{◌≡◌, ◌↔◌, length, Err, IfOk, IfErr, IsTrue};
ghost use Rattle.ficus_ids.specs.Members.{IsMember};
ghost use Rattle.ficus_runs.specs.Numbered.{IsNumbered};
ghost use Rattle.ficus_runs.specs.Peers.{ArePeers};
ghost use Rattle.ficus_runs.specs.Sequence.{unchanged};
ghost use Rattle.ficus_world.specs.Moves.{ArePeersUp, FindsPeers, FindsUp};
ghost use Rattle.ficus_world.specs.World.{IsSoundMember};
ghost use Rattle.ficus_opening.specs.declared.member.MemberState.TheVariants.{Up as IsUp};

use crate::member::is_up;
use crate::post::Post;
use ficus_ids::{Members, Refusal};
use ficus_model::History;
use ficus_opening::Member;
use ficus_outside::Link;
use std::marker::Model;

/// The members of a volume, the history of this run, and the link over which they exchange messages, with the position
/// behind each posted message: all of a world but its disks.
#[derive(Drop)]
pub(crate) struct Group<L: Link + Drop> {
    pub(crate) members: Vec<Member>,
    pub(crate) history: History,
    pub(crate) post: Post<L>,
}

impl<L: Link + Drop> Model for Group<L> {
    ghost use Rattle.ficus_world.specs.World.{Whole, IsWorld, whole_of};

    ghost Value = { Whole };

    ghost view = { λ g. whole_of g.members.items g.history.events g.post.now };

    ghost invariant = { λ g. IsWorld (whole_of g.members.items g.history.events g.post.now) };
}

impl<L: Link + Drop> Group<L> {
    /// Whether it is the number of a member.
    pub(crate) fn has(&self, number: u8) -> bool
        ensures { IsTrue result ↔ IsMember (length self.now.members) number }
    {
        1 <= number && number as usize <= self.members.len()
    }

    /// The member of this number.
    pub(crate) fn member(&self, number: u8) -> &Member
        requires { IsMember (length self.now.members) number }
        ensures is { IsNumbered self.now.members number result.now }
        ensures sound { IsSoundMember (length self.now.members) (length self.now.events) number result.now }
    {
        &self.members[number as usize - 1]
    }

    /// The member of this number, where there is one that is up.
    pub(crate) fn up(&self, number: u8) -> Result<&Member, Refusal>
        ensures is { IfOk result (λ member. IsNumbered self.now.members number member.now) }
        ensures up { IfOk result (λ member. member.now.state ≡ IsUp) }
        ensures sound { IfOk result (λ member.
            IsSoundMember (length self.now.members) (length self.now.events) number member.now) }
        ensures refused { IfErr result (λ refusal. FindsUp number self.now (Err refusal) (unchanged self.now)) }
    {
        if !self.has(number) {
            return Err(Refusal::Member);
        }
        let member = self.member(number);
        if is_up(member) {
            Ok(member)
        } else {
            Err(Refusal::Down)
        }
    }

    /// Whether they are the numbers of two different members.
    pub(crate) fn are_peers(&self, by: u8, to: u8) -> bool
        ensures { IsTrue result ↔ ArePeers (length self.now.members) by to }
    {
        self.has(by) && self.has(to) && by != to
    }

    /// Looks whether they are two different members that are up.
    pub(crate) fn up_peers(&self, by: u8, to: u8) -> Result<(), Refusal>
        ensures peers { IfOk result (λ _. ArePeersUp self.now by to) }
        ensures refused { IfErr result (λ refusal. FindsPeers by to self.now (Err refusal) (unchanged self.now)) }
    {
        if !self.are_peers(by, to) {
            return Err(Refusal::Member);
        }
        if !is_up(self.member(by)) {
            return Err(Refusal::Down);
        }
        if !is_up(self.member(to)) {
            return Err(Refusal::Down);
        }
        Ok(())
    }

    /// How many members there are.
    pub(crate) fn count(&self) -> Members
        ensures { result ≡ length self.now.members }
    {
        self.members[0].replica.saved.members
    }
}
