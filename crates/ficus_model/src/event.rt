use ficus_ids::{Id, Kind, Listed, Name};

/// One atomic action of one replica. A history is a list of events; a position is a place in it, from 0.
/// Reconciliation is pairwise and one-sided, as in Ficus (Guy, Popek and Page 1993).
#[derive(Drop)]
pub enum Event {
    /// Replica `by` changes what it holds. Its k-th update over its life is numbered `by.k`, from 1.
    Update {
        by: u8,
        op: Op,
    },
    /// Replica `by` asks `to` for its state.
    Ask {
        by: u8,
        to: u8,
    },
    /// Replica `by` serves its state in answer to the ask at a position: that of its generation `state`, in so many
    /// pieces, from 1. A replica's generation is how many times it was saved.
    Serve {
        by: u8,
        ask: u32,
        state: u64,
        pieces: u32,
    },
    /// Replica `by` takes a piece, from 0, of what was served at a position, which doesn't complete a state.
    Take {
        by: u8,
        serve: u32,
        piece: u32,
    },
    /// Replica `by` takes the piece, from 0, of what was served at a position that completes a state, and so the state.
    Accept {
        by: u8,
        serve: u32,
        piece: u32,
    },
    /// Replica `by` gives up what it knows to be seen as removed by all.
    Collect {
        by: u8,
    },
    /// Replica `by` starts anew. Its open ask is gone.
    Restart {
        by: u8,
    },
}

/// What an update does. An entry that it enters has the update's number as its identifier.
#[derive(Drop)]
pub enum Op {
    /// Makes an object of a kind and enters it in a directory under a name. The object has the update's
    /// number as its identifier, as the entry has. A symbolic link has a text from then on; that of others is empty.
    Make {
        dir: Id,
        name: Name,
        kind: Kind,
        text: Listed<u8>,
    },
    /// Enters a file in a directory under one more name.
    Link {
        dir: Id,
        name: Name,
        target: Id,
    },
    /// Removes the entries of one directory that have one name and lead to the target.
    Remove {
        entries: Listed<Id>,
        target: Id,
    },
    /// Removes such entries, and enters their target in a directory under a name.
    Move {
        entries: Listed<Id>,
        dir: Id,
        name: Name,
        target: Id,
    },
    /// Gives a file that isn't in conflict new bytes.
    Write {
        file: Id,
        bytes: Listed<u8>,
    },
    /// Ends a file's conflict by bytes that a user chose.
    Settle {
        file: Id,
        bytes: Listed<u8>,
    },
    /// Ends a file's conflict by the bytes that the resolver of its kind gives.
    Resolve {
        file: Id,
        bytes: Listed<u8>,
    },
    /// Enters an orphan in a directory under a name.
    Adopt {
        file: Id,
        dir: Id,
        name: Name,
    },
    /// Gives up an orphan that is a file.
    Discard {
        file: Id,
    },
}
