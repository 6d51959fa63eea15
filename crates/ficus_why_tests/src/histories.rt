use ficus_ids::{Id, Kind, Listed, Name, ROOT, Refusal};
use ficus_model::{Event, History, Op};
use std::alloc::Global;

/// What happens at a replica. Where it serves or accepts, the number is the position of what it does so with.
#[derive(Clone, Copy)]
enum Step {
    Starts(u8),
    /// It makes a file in the root.
    Makes(u8),
    /// It writes these bytes to the file `1.1`.
    Writes(u8, &'static [u8]),
    /// It settles the file `1.1` by these bytes.
    Settles(u8, &'static [u8]),
    /// It asks this one.
    Asks(u8, u8),
    Serves(u8, u32),
    Accepts(u8, u32),
}

// Replica 1 makes the file `1.1`, of which replica 2 hears. Both write to it, at the positions 6 and 7, where 2 writes
// these bytes. Each hears of the other, and 1 settles the file.
fn steps(second: &'static [u8]) -> [Step; 15] {
    [
        Step::Starts(1),
        Step::Starts(2),
        Step::Makes(1),
        Step::Asks(2, 1),
        Step::Serves(1, 3),
        Step::Accepts(2, 4),
        Step::Writes(1, b"a"),
        Step::Writes(2, second),
        Step::Asks(1, 2),
        Step::Serves(2, 8),
        Step::Accepts(1, 9),
        Step::Asks(2, 1),
        Step::Serves(1, 11),
        Step::Accepts(2, 12),
        Step::Settles(1, b"ab"),
    ]
}

/// So many of the fifteen steps of a conflict, in which replica 2 writes these bytes.
#[derive(Clone, Copy, Debug)]
pub(crate) struct Happened {
    pub count: usize,
    pub second: &'static [u8],
}

/// What has happened becomes the history.
pub(crate) fn happens(
    alloc: Global,
    happened: Happened,
    history: &mut History,
) -> Result<(), Refusal> {
    let steps = steps(happened.second);
    for step in steps.iter().take(happened.count) {
        steps_on(alloc, *step, history)?;
    }
    Ok(())
}

// One step more.
fn steps_on(alloc: Global, step: Step, history: &mut History) -> Result<(), Refusal> {
    history.reserve(1)?;
    if history.len() >= 15 {
        return Err(Refusal::Spent);
    }
    history.push(event_of(alloc, step)?);
    Ok(())
}

// The event of a step.
fn event_of(alloc: Global, step: Step) -> Result<Event, Refusal> {
    match step {
        Step::Makes(by) => making(alloc, by),
        Step::Writes(by, bytes) => writing(alloc, by, bytes),
        Step::Settles(by, bytes) => settling(alloc, by, bytes),
        Step::Starts(by) => Ok(Event::Restart { by }),
        Step::Asks(by, to) => Ok(Event::Ask { by, to }),
        Step::Serves(by, ask) => Ok(Event::Serve {
            by,
            ask,
            state: 0,
            pieces: 1,
        }),
        Step::Accepts(by, serve) => Ok(Event::Accept {
            by,
            serve,
            piece: 0,
        }),
    }
}

fn making(alloc: Global, by: u8) -> Result<Event, Refusal> {
    let Ok(name) = Name::new(b"f") else {
        return Err(Refusal::NoEntry);
    };
    let op = Op::Make {
        dir: ROOT,
        name,
        kind: Kind::Plain,
        text: Listed::of(Vec::new(alloc)),
    };
    Ok(Event::Update { by, op })
}

const FILE: Id = Id {
    replica: 1,
    number: 1,
};

fn writing(alloc: Global, by: u8, bytes: &[u8]) -> Result<Event, Refusal> {
    let bytes = Listed::of(bytes.to_vec(alloc)?);
    let op = Op::Write { file: FILE, bytes };
    Ok(Event::Update { by, op })
}

fn settling(alloc: Global, by: u8, bytes: &[u8]) -> Result<Event, Refusal> {
    let bytes = Listed::of(bytes.to_vec(alloc)?);
    let op = Op::Settle { file: FILE, bytes };
    Ok(Event::Update { by, op })
}
