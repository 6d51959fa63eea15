ghost use Rattle.ficus_durable_state.specs.Saved.{FitsImage};

use crate::calls::{Changing, Looking, refused, told};
use crate::fault::Fault;
use crate::makes::Make;
use crate::scenes::{Scene, after};
use crate::steps::{fresh, makes, why_not_taken, why_refused};
use ficus_ids::{Kind, Refusal};
use ficus_replica::Replica;
use std::alloc::Global;
use std::test::Fail;

// A replica that may make so many updates and write so many bytes makes a file, writes so many bytes to it, and does
// one thing more: why this is refused, where it is.
const UPDATES: &[(u32, u32, usize, Make, Option<Refusal>)] = &[
    (3, 5, 5, Make::Text(0), None),
    (3, 5, 2, Make::Text(3), None),
    (3, 5, 5, Make::Text(1), Some(Refusal::Quota)),
    (3, 5, 2, Make::Text(4), Some(Refusal::Quota)),
    (3, 16_384, 0, Make::Text(16_384), None),
    (3, 16_384, 1, Make::Text(16_384), Some(Refusal::Quota)),
    (3, 4_194_304, 0, Make::Text(16_385), Some(Refusal::TooLong)),
    (3, 5, 5, Make::Directory("/d"), None),
    (2, 5, 5, Make::Directory("/d"), Some(Refusal::Spent)),
    // Of several refusals the first comes.
    (2, 5, 5, Make::Text(1), Some(Refusal::Spent)),
    (2, 5, 5, Make::Text(16_385), Some(Refusal::TooLong)),
];

#[test]
fn updates_beyond_the_limits_are_refused(rt: HostRuntime) -> Result<(), Fail> {
    for &(ids, bytes, first, then, refusal) in UPDATES {
        let found = last_refusal(rt.alloc(), ids, bytes, first, then)?;
        assert!(rt; found == refusal, "{ids} {bytes} {first} {then:?}");
    }
    Ok(())
}

fn last_refusal(
    alloc: Global,
    ids: u32,
    bytes: u32,
    first: usize,
    then: Make,
) -> Result<Option<Refusal>, Fault> {
    let mut replica = fresh(alloc, 1, ids, bytes)?;
    refusal_behind(alloc, &mut replica, first, then)
}

// The same of this replica.
fn refusal_behind(
    alloc: Global,
    replica: &mut Replica,
    first: usize,
    then: Make,
) -> Result<Option<Refusal>, Fault>
    requires { FitsImage replica.old.saved }
{
    makes(alloc, replica, Make::File(Kind::Plain))?;
    makes(alloc, replica, Make::Text(first))?;
    why_refused(makes(alloc, replica, then))
}

// A replica that has made nothing asks, and is answered with this number and what a replica 1 holds that has made an
// object of the kind, or nothing: why the answer isn't taken, where it isn't.
const ANSWERS: &[(u64, Option<Kind>, Option<Refusal>)] = &[
    (1, None, None),
    (2, None, Some(Refusal::Stale)),
    (1, Some(Kind::Plain), Some(Refusal::BadMessage)),
];

#[test]
fn an_answer_is_taken_only_where_it_is_asked_for_and_fits(rt: HostRuntime) -> Result<(), Fail> {
    for &(number, kind, refusal) in ANSWERS {
        let found = why_not_answered(rt.alloc(), number, kind)?;
        assert!(rt; found == refusal, "{number} {kind:?}");
    }
    Ok(())
}

fn why_not_answered(
    alloc: Global,
    number: u64,
    kind: Option<Kind>,
) -> Result<Option<Refusal>, Fault> {
    let mut other = fresh(alloc, 1, 1, 0)?;
    why_not_served(alloc, number, &mut other, kind)
}

// The same, where this replica makes the object and serves.
fn why_not_served(
    alloc: Global,
    number: u64,
    other: &mut Replica,
    kind: Option<Kind>,
) -> Result<Option<Refusal>, Fault>
    requires { FitsImage other.old.saved }
{
    match kind {
        None => why_not_taken(alloc, number, other),
        Some(kind) => {
            makes(alloc, other, Make::File(kind))?;
            why_not_taken(alloc, number, other)
        }
    }
}

// What a look tells of a scene with ample memory: how many items.
const LOOKS: &[(Scene, Looking, usize)] = &[
    (Scene::Written, Looking::Tree, 1),
    (Scene::Written, Looking::VersionsOfFile, 1),
    (Scene::Written, Looking::MergedFiles, 1),
    (Scene::Conflict, Looking::ConflictingFiles, 1),
    (Scene::Conflict, Looking::VersionsOfFile, 2),
    (Scene::Orphan, Looking::Orphans, 1),
    (Scene::Orphan, Looking::Tree, 0),
    (Scene::Removed, Looking::Marks, 1),
    (Scene::Linked, Looking::TextOfLink, 1),
    (Scene::Linked, Looking::MergedFiles, 1),
    (Scene::Detached, Looking::Detached, 2),
    (Scene::Detached, Looking::Marks, 2),
];

#[test]
fn each_look_tells_with_ample_memory(rt: HostRuntime) -> Result<(), Fail> {
    for &(scene, look, items) in LOOKS {
        let found = told_after(rt.alloc(), scene, look)?;
        assert!(rt; found == items, "{scene:?} {look:?}: {found}");
    }
    Ok(())
}

fn told_after(alloc: Global, scene: Scene, look: Looking) -> Result<usize, Fault> {
    let replica = after(alloc, scene)?;
    told(alloc, &replica, look)
}

// What a change is answered after a scene with ample memory: why it is refused, where it is.
const CHANGES: &[(Scene, Changing, Option<Refusal>)] = &[
    (Scene::Written, Changing::Symlink, None),
    (Scene::Written, Changing::Link, None),
    (Scene::Written, Changing::Rename, None),
    (Scene::Written, Changing::Remove, None),
    (Scene::Conflict, Changing::Settle, None),
    (Scene::Conflict, Changing::Resolve, None),
    (Scene::Orphan, Changing::Adopt, None),
    (Scene::Orphan, Changing::Discard, None),
    (Scene::Written, Changing::Settle, Some(Refusal::NoConflict)),
    (Scene::Written, Changing::Discard, Some(Refusal::NotOrphan)),
    (Scene::Linked, Changing::Settle, Some(Refusal::IsLink)),
];

#[test]
fn each_change_is_done_with_ample_memory(rt: HostRuntime) -> Result<(), Fail> {
    for &(scene, change, refusal) in CHANGES {
        let found = refused_after(rt.alloc(), scene, change)?;
        assert!(rt; found == refusal, "{scene:?} {change:?}");
    }
    Ok(())
}

fn refused_after(alloc: Global, scene: Scene, change: Changing) -> Result<Option<Refusal>, Fault> {
    let replica = after(alloc, scene)?;
    refused(alloc, &replica, change)
}
