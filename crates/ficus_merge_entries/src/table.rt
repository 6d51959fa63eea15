ghost use Rattle.std.specs.Prelude.{◌≡◌, Some, Ok, IfOk, IsTrue};
ghost use Rattle.std.specs.Option.{option_copied, option_or};
ghost use Rattle.ficus_ids.specs.Marks.{has};
ghost use Rattle.ficus_ids.specs.Members.{IsCount, IsMember};
ghost use Rattle.ficus_merge_entries.specs.Table.{everyone as everyone_of, StandFor, IsDead, Merges, MergesEntry, state_of};
ghost use Rattle.ficus_merge_entries.specs.Merge.{IsReplacement};

use ficus_entry::State::{Dead, Live};
use ficus_entry::{Entry, State};
use ficus_ids::{Marks, Members, Memory};

/// The replica that takes a peer's state.
#[derive(Clone, Copy)]
pub(crate) struct Taker {
    number: u8,
    members: Members,
    everyone: Marks,
    ghost valid: { IsCount members },
    ghost member: { IsMember members number },
    ghost all: { StandFor everyone (everyone_of members) },
}

impl Taker {
    pub(crate) fn new(number: u8, members: Members) -> Taker
        requires { IsMember members number }
        ensures number { result.number ≡ number }
        ensures members { result.members ≡ members }
    {
        Taker {
            number,
            members,
            everyone: everyone(members),
        }
    }

    /// What stands at the taker afterwards, by what stood there and what stands at the peer, or nothing where it is
    /// what stood there.
    #[tactic(auto, using(crate::proofs::Replacing::live_stays))]
    pub(crate) fn replacement(
        self,
        mine: Option<&Entry>,
        theirs: Option<&Entry>,
    ) -> Result<Option<Entry>, Memory>
        ensures { IfOk result (IsReplacement self.number self.members
            (option_copied mine.entry) (option_copied theirs.entry)) }
    {
        if are_live(mine, theirs) {
            return Ok(None);
        }
        match (mine.or(theirs), self.new_state(mine, theirs)) {
            (Some(entry), Some(state)) => Ok(Some(with_state(entry, state)?)),
            _ => Ok(None),
        }
    }

    // The state that the table makes.
    fn state(self, mine: Option<&Entry>, theirs: Option<&Entry>) -> Option<State>
        ensures { Merges self.number self.members (state_of (option_copied mine.entry))
            (state_of (option_copied theirs.entry)) result }
    {
        let my_state = mine.map(|entry| entry.state);
        let their_state = theirs.map(|entry| entry.state);
        self.merge(my_state.as_ref(), their_state.as_ref())
    }

    // The state that the table makes, or nothing where it is the taker's.
    fn new_state(self, mine: Option<&Entry>, theirs: Option<&Entry>) -> Option<State>
        ensures { Merges self.number self.members (state_of (option_copied mine.entry))
            (state_of (option_copied theirs.entry))
            (option_or result (state_of (option_copied mine.entry))) }
    {
        let state = self.state(mine, theirs);
        if stands(mine, &state) { None } else { state }
    }

    // The merge table, a row an arm.
    fn merge(self, mine: Option<&State>, theirs: Option<&State>) -> Option<State>
        ensures { Merges self.number self.members
            (option_copied mine.entry) (option_copied theirs.entry) result }
    {
        match (mine, theirs) {
            (None, None) => None,
            (None, Some(Live)) => Some(Live),
            (None, Some(Dead { one, two })) => {
                if one.has(self.number) {
                    None
                } else {
                    Some(self.dead(one.with(self.number), *two))
                }
            }
            (Some(Live), None) => Some(Live),
            (Some(Live), Some(Live)) => Some(Live),
            (Some(Live), Some(Dead { one, two })) => Some(self.dead(one.with(self.number), *two)),
            (Some(Dead { one, two }), Some(Live)) => Some(self.dead(*one, *two)),
            (
                Some(Dead { one, two }),
                Some(
                    Dead {
                        one: peers_one,
                        two: peers_two,
                    },
                ),
            ) => { Some(self.dead(one.union(*peers_one), two.union(*peers_two))) }
            (Some(Dead { one, two }), None) => {
                if one.is_full(self.members) {
                    Some(self.dead(*one, self.everyone))
                } else {
                    Some(self.dead(*one, *two))
                }
            }
        }
    }

    // Dead with these sets. Where all know of the removal, the taker now knows that all do.
    fn dead(self, one: Marks, two: Marks) -> State
        ensures { IsDead self.number self.members (has one) (has two) (Some result) }
    {
        if one.is_full(self.members) {
            Dead {
                one,
                two: two.with(self.number),
            }
        } else {
            Dead { one, two }
        }
    }
}

// The entry, in this state.
fn with_state(entry: &Entry, state: State) -> Result<Entry, Memory>
    ensures { result ≡ Ok (record entry.now { state = state }) }
{
    let mut other = entry.copy()?;
    other.state = state;
    Ok(other)
}

// Whether both have the entry, and neither has removed it. The table then keeps what stands at the taker.
fn are_live(mine: Option<&Entry>, theirs: Option<&Entry>) -> bool
    ensures mine { IsTrue result → state_of (option_copied mine.entry) ≡ Some State.Live }
    ensures theirs { IsTrue result → state_of (option_copied theirs.entry) ≡ Some State.Live }
{
    match (mine, theirs) {
        (Some(mine), Some(theirs)) => mine.is_live() && theirs.is_live(),
        _ => false,
    }
}

// Whether this is the state of the entry.
fn stands(entry: Option<&Entry>, state: &Option<State>) -> bool
    ensures { IsTrue result → state_of (option_copied entry.entry) ≡ state.now }
{
    match (entry, state) {
        (Some(entry), Some(state)) => is_same_state(&entry.state, state),
        _ => false,
    }
}

fn is_same_state(one: &State, other: &State) -> bool
    ensures { IsTrue result → one.now ≡ other.now }
{
    one == other
}

// The set of all members.
fn everyone(members: Members) -> Marks
    ensures all { StandFor result (everyone_of members) }
    ensures valid { IsCount members }
{
    let mut everyone = Marks::empty();
    for member in 1..=members.count() {
        everyone = everyone.with(member);
    }
    everyone
}
