ghost use Rattle.std.specs.Prelude.{IfOk, OnOk};
ghost use Rattle.ficus_durable_state.specs.Saved.{FitsImage};

use crate::fault::Fault;
use crate::makes::Make;
use crate::steps::{fresh, hears, makes};
use ficus_ids::Kind;
use ficus_replica::Replica;
use std::alloc::Global;

/// What has happened to replica 1 of two.
#[derive(Clone, Copy, Debug)]
pub(crate) enum Scene {
    /// It has made the file `/f` and written to it.
    Written,
    /// Besides, replica 2 has written to it too, and 1 has heard of that.
    Conflict,
    /// Or replica 2 has removed it, without having heard of what 1 wrote, and 1 has heard of that.
    Orphan,
    /// It has removed the file `/f`.
    Removed,
    /// It has made the symbolic link `/f`.
    Linked,
    /// It has moved `/a` into `/b`, and replica 2 `/b` into `/a`, and it has heard of that.
    Detached,
}

// What one of the two does.
#[derive(Clone, Copy)]
enum Step {
    /// Replica 1 makes this.
    One(Make),
    /// Replica 2 makes this.
    Two(Make),
    /// Replica 1 asks replica 2 and takes what it holds.
    OneHears,
    /// Replica 2 asks replica 1 and takes what it holds.
    TwoHears,
}

const WRITTEN: &[Step] = &[Step::One(Make::File(Kind::Lines)), Step::One(Make::Text(1))];

const CONFLICT: &[Step] = &[
    Step::One(Make::File(Kind::Lines)),
    Step::TwoHears,
    Step::Two(Make::Text(2)),
    Step::One(Make::Text(1)),
    Step::OneHears,
];

const ORPHAN: &[Step] = &[
    Step::One(Make::File(Kind::Lines)),
    Step::TwoHears,
    Step::Two(Make::Removal),
    Step::One(Make::Text(1)),
    Step::OneHears,
];

const REMOVED: &[Step] = &[Step::One(Make::File(Kind::Lines)), Step::One(Make::Removal)];

const LINKED: &[Step] = &[Step::One(Make::File(Kind::Symlink))];

const DETACHED: &[Step] = &[
    Step::One(Make::File(Kind::Lines)),
    Step::One(Make::Directory("/a")),
    Step::One(Make::Directory("/b")),
    Step::TwoHears,
    Step::Two(Make::Move("/b", "/a/b")),
    Step::One(Make::Move("/a", "/b/a")),
    Step::OneHears,
];

// What brings the scene about.
fn steps(scene: Scene) -> &'static [Step] {
    match scene {
        Scene::Written => WRITTEN,
        Scene::Conflict => CONFLICT,
        Scene::Orphan => ORPHAN,
        Scene::Removed => REMOVED,
        Scene::Linked => LINKED,
        Scene::Detached => DETACHED,
    }
}

/// Replica 1 after that.
pub(crate) fn after(alloc: Global, scene: Scene) -> Result<Replica, Fault>
    ensures { IfOk result (λ replica. FitsImage replica.saved) }
{
    let mut one = fresh(alloc, 1, 9, 99)?;
    passes(alloc, &mut one, scene)?;
    Ok(one)
}

// Replica 1 goes through it, with a replica 2 beside it.
fn passes(alloc: Global, one: &mut Replica, scene: Scene) -> Result<(), Fault>
    requires { FitsImage one.old.saved }
    ensures { OnOk result (FitsImage one.new.saved) }
{
    let mut two = fresh(alloc, 2, 9, 99)?;
    happen(alloc, one, &mut two, steps(scene))
}

// The steps, one after the other.
fn happen(alloc: Global, one: &mut Replica, two: &mut Replica, steps: &[Step]) -> Result<(), Fault>
    requires one { FitsImage one.old.saved }
    requires two { FitsImage two.old.saved }
    ensures { OnOk result (FitsImage one.new.saved) }
{
    for &step in steps {
        happens(alloc, one, two, step)?;
    }
    Ok(())
}

// One step.
fn happens(alloc: Global, one: &mut Replica, two: &mut Replica, step: Step) -> Result<(), Fault>
    requires one { FitsImage one.old.saved }
    requires two { FitsImage two.old.saved }
    ensures one { OnOk result (FitsImage one.new.saved) }
    ensures two { OnOk result (FitsImage two.new.saved) }
{
    match step {
        Step::One(make) => makes(alloc, one, make),
        Step::Two(make) => makes(alloc, two, make),
        Step::OneHears => hears(alloc, one, two),
        Step::TwoHears => hears(alloc, two, one),
    }
}
