//! What the generation of a member tells, in worlds that need stand for no history: equal generations are equal lists.
ghost use Rattle.std.specs.Prelude.{◌≡◌, ◌≤◌, ℕ, [], List, Some, length};
ghost use Rattle.ficus_disk.specs.declared.pair.Pair.{Pair as PairValue};
ghost use Rattle.ficus_durable_state.specs.declared.saved.Saved.{Saved as SavedValue};
ghost use Rattle.ficus_opening.specs.declared.member.Member.{Member as MemberValue};
ghost use Rattle.ficus_replica.specs.Accept.{IsOpen};
ghost use Rattle.ficus_runs.specs.Message.{IsSpelled};
ghost use Rattle.ficus_runs.specs.Numbered.{IsNumbered};
ghost use Rattle.ficus_runs.specs.Outcome.{Outcome};
ghost use Rattle.ficus_script.specs.declared.answer.Answer.{Answer as AnswerValue};
ghost use Rattle.ficus_script.specs.declared.answer.Answer.TheVariants.{Done};
ghost use Rattle.ficus_script.specs.declared.command.Command.{Command as CommandValue};
ghost use Rattle.ficus_script.specs.declared.command.Command.TheVariants.{Give};
ghost use Rattle.ficus_wire.specs.Message.{IsPiece};
ghost use Rattle.ficus_wire.specs.Parts.{HeldParts, part_at};
ghost use Rattle.ficus_wire.specs.declared.message.Message.{Message as MessageValue};
ghost use Rattle.ficus_wire.specs.declared.message.Message.TheVariants.{Piece};
ghost use Rattle.ficus_world.specs.Generations.{AreCutFromOne, Chain, HasSaved, HasTakenServed, IsFresh, IsServed, SomeLink};
ghost use Rattle.ficus_world.specs.Kills.{IsDeedOf, Passes};
ghost use Rattle.ficus_world.specs.Moves.{CutShort, Moves};
ghost use Rattle.ficus_world.specs.World.{IsWorld, Whole};

use ficus_disk::Disk;
use ficus_keeper::Keep;
use ficus_outside::Link;

/// What a command does is a chain of links, also where it is cut short for want of memory; so is what passes with the
/// disks in one command or a sweep; and chains join. It does nothing when it runs.
pub fn commands_are_chains<K: Keep, L: Link, D: Disk>()
    ensures moves { (old new : Whole) (command : CommandValue) (outcomes : List Outcome) (answer : AnswerValue)
        → Moves L.tells D.tells old command outcomes answer new → Chain L.tells D.tells old new }
    ensures cut { (old new : Whole) (command : CommandValue) (outcomes : List Outcome)
        → CutShort L.tells command old (record { outcomes = outcomes; after = new })
        → Chain L.tells D.tells old new }
    ensures passes { (command : CommandValue) (old new : Whole) (disks now : List (PairValue D))
        → Passes L.tells K.Keep D.Disk (IsDeedOf command) old new disks now → Chain L.tells D.tells old new }
    ensures joined { (old middle new : Whole) → Chain L.tells D.tells old middle → Chain L.tells D.tells middle new
        → Chain L.tells D.tells old new }
{}

/// The law that the generation of a member determines what it has saved, over disks that tell what they hold, in every
/// world: the generation never falls, and where it stays what is saved stays. A save that failed, and that no restart
/// finds, changes neither. It does nothing when it runs.
pub fn equal_generations_save_the_same<L: Link, D: Disk>()
    ensures risen { D.tells → (start one other : Whole) (r : ℕ) (was now : SavedValue) → IsWorld start
        → Chain L.tells D.tells start one → Chain L.tells D.tells one other → HasSaved one r was
        → HasSaved other r now → was.generation ≤ now.generation }
    ensures same { D.tells → (start one other : Whole) (r : ℕ) (was now : SavedValue) → IsWorld start
        → Chain L.tells D.tells start one → Chain L.tells D.tells one other → HasSaved one r was
        → HasSaved other r now → was.generation ≡ now.generation → was ≡ now }
{}

/// The law that each piece which was posted, over a link that tells its posts, is one of an answer that was served; and
/// so is each that a member holds of the answer for which it waits. It does nothing when it runs.
pub fn pieces_were_served<L: Link, D: Disk>()
    ensures posted { L.tells → (start now : Whole) (chain : Chain L.tells D.tells start now) (number : ℕ)
        (bytes : List ℕ) (message : MessageValue) → start.post.posts ≡ [] → IsNumbered now.post.posts number bytes
        → IsSpelled (length now.members) bytes message → IsPiece message
        → (saved : SavedValue) × SomeLink (IsServed message saved) chain }
    ensures held { L.tells → (start now : Whole) (chain : Chain L.tells D.tells start now) (r : ℕ)
        (member : MemberValue) (parts : HeldParts) (from ask index : ℕ) (bytes : List ℕ) → IsFresh start
        → IsNumbered now.members r member → member.parts ≡ Some parts → part_at parts index ≡ Some bytes
        → IsOpen member.replica from ask → (saved : SavedValue)
        × SomeLink (IsServed (Piece from r ask parts.state parts.pieces index bytes) saved) chain }
{}

/// The law that equal generations are equal lists, over a link and disks that tell: what a member had saved whenever it
/// served a piece of one state is the same, and its pieces of that state are cut from the same bytes, in whichever
/// answers it posted them. It does nothing when it runs.
pub fn equal_generations_are_equal_lists<L: Link, D: Disk>()
    ensures lists { D.tells → (start now : Whole) (chain : Chain L.tells D.tells start now) → IsWorld start
        → (from state to ask pieces index : ℕ) (bytes : List ℕ) (saved : SavedValue)
        (other_to other_ask others other : ℕ) (other_bytes : List ℕ) (again : SavedValue)
        → SomeLink (IsServed (Piece from to ask state pieces index bytes) saved) chain
        → SomeLink (IsServed (Piece from other_to other_ask state others other other_bytes) again) chain
        → saved ≡ again }
    ensures pieces { L.tells → D.tells → (start now : Whole) → Chain L.tells D.tells start now → IsWorld start
        → start.post.posts ≡ [] → (from state to ask pieces index number : ℕ) (bytes one : List ℕ)
        (other_to other_ask others other other_number : ℕ) (other_bytes two : List ℕ)
        → IsNumbered now.post.posts number one
        → IsSpelled (length now.members) one (Piece from to ask state pieces index bytes)
        → IsNumbered now.post.posts other_number two
        → IsSpelled (length now.members) two (Piece from other_to other_ask state others other other_bytes)
        → AreCutFromOne pieces index bytes others other other_bytes }
{}

/// The law that what is taken with an answer are the tables that its sender had when it served each of the pieces. It
/// does nothing when it runs.
pub fn taken_answers_were_served<L: Link, D: Disk>()
    ensures { L.tells → D.tells → (start old new : Whole) (chain : Chain L.tells D.tells start old) (mail : ℕ)
        (outcomes : List Outcome) → IsFresh start → Moves L.tells D.tells old (Give mail) outcomes Done new
        → HasTakenServed chain new mail }
{}
