ghost use Rattle.std.specs.Prelude.{ℕ, List};
ghost use Rattle.ficus_model.specs.declared.event.Event.{Event};
ghost use Rattle.ficus_model.specs.Known.{Knows};
ghost use Rattle.ficus_model.specs.Lawful.{Volume, IsLawful};
ghost use Rattle.ficus_model.specs.Live.{IsLive};
ghost use Rattle.ficus_laws.specs.Accepts.{pulled};
ghost use Rattle.ficus_laws.specs.Laws.{AnswersAreNewer, AcceptJoinsKnown, AcceptJoinsLive, AcceptJoinsMade, IsPull, IsPulled, small_volume, small_history, small_entry};

/// An answer that may be taken is newer than all that its replica has heard of the server. Once it is
/// taken, the replica knows what it knew and what the server knew when it served.
pub fn accept_joins()
    ensures newer { AnswersAreNewer }
    ensures known { AcceptJoinsKnown }
    ensures live { AcceptJoinsLive }
    ensures made { AcceptJoinsMade }
{}

/// A replica asks another, which serves in as many pieces as it likes, and it takes them in order: each of these events
/// may come. Afterwards the replica knows what either knew, and nothing has changed for the others.
pub fn pull_joins()
    ensures lawful { (volume : Volume) (H : List Event) (replica server last : ℕ) → IsPull volume H replica server
        → IsLawful volume (pulled H replica server last) }
    ensures joined { (H : List Event) (replica server last : ℕ)
        → IsPulled H replica server (pulled H replica server last) }
{}

/// There are lawful histories in which an answer is taken, and it brings an entry.
pub fn answers_are_taken()
    ensures lawful { IsLawful small_volume small_history }
    ensures brought { IsLive small_history (Knows small_history 1) small_entry }
{}
