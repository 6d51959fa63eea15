// The links in memory.
use ficus_faults::Failed;
use ficus_ids::Memory;
use ficus_outside::{FailLink, FetchFault, Link, MemLink};
use std::alloc::Global;
use std::test::Fail;

const MESSAGE: &[u8] = b"twelve bytes";

/// What four calls come to of which these fail: a post, two fetches of its message, and a post. A fetch that fails,
/// also in the place of a post, is told as what it is.
#[derive(Drop)]
struct Calls {
    fail: &'static [u32],
    first: Option<u32>,
    once: bool,
    again: bool,
    second: Option<u32>,
}

const CALLS: [Calls; 5] = [
    Calls {
        fail: &[],
        first: Some(1),
        once: true,
        again: true,
        second: Some(2),
    },
    Calls {
        fail: &[2],
        first: Some(1),
        once: false,
        again: true,
        second: Some(2),
    },
    Calls {
        fail: &[3],
        first: Some(1),
        once: true,
        again: false,
        second: Some(2),
    },
    Calls {
        fail: &[4],
        first: Some(1),
        once: true,
        again: true,
        second: None,
    },
    Calls {
        fail: &[4, 2, 3],
        first: Some(1),
        once: false,
        again: false,
        second: None,
    },
];

// The number of the message that is posted, or `None` where the link fails.
fn post<L: Link>(alloc: Global, link: &mut L) -> Result<Option<u32>, Memory> {
    if link.count() > 8 || link.total() > 1 << 30 {
        return Ok(None);
    }
    let message = MESSAGE.to_vec(alloc)?;
    link.reserve(1)?;
    match link.post(message) {
        Ok(number) => Ok(Some(number)),
        Err(Failed) => Ok(None),
    }
}

// Whether the first message is fetched as it was posted, and not at all where the link fails.
fn fetches<L: Link>(link: &mut L) -> Result<bool, Memory> {
    if link.count() == 0 {
        return Ok(false);
    }
    match link.fetch(1) {
        Ok(message) => Ok(message.as_slice() == MESSAGE),
        Err(FetchFault::Failed) => Ok(false),
        Err(FetchFault::Memory) => Err(Memory),
    }
}

// Whether the four calls come to that.
fn come_to(alloc: Global, row: &Calls) -> Result<bool, Memory> {
    let mut link = FailLink::new(alloc, row.fail.to_vec(alloc)?);
    come_to_over(alloc, &mut link, row)
}

// The same over this link.
fn come_to_over(alloc: Global, link: &mut FailLink, row: &Calls) -> Result<bool, Memory> {
    let first = post(alloc, link)?;
    let once = fetches(link)?;
    let again = fetches(link)?;
    let second = post(alloc, link)?;
    let total = if second.is_some() { 24 } else { 12 };
    Ok(
        first == row.first
            && once == row.once
            && again == row.again
            && second == row.second
            && link.total() == total,
    )
}

#[test]
fn links_fail_where_they_are_told(rt: HostRuntime) -> Result<(), Fail> {
    for row in &CALLS {
        assert!(rt; come_to(rt.alloc(), row)?);
    }
    Ok(())
}

#[test]
fn a_link_counts_what_was_posted_before(rt: HostRuntime) -> Result<(), Fail> {
    let mut link = MemLink::after(rt.alloc(), 1_073_741_812);
    assert!(rt; link.count() == 0);
    assert!(rt; post(rt.alloc(), &mut link)? == Some(1));
    assert!(rt; link.total() == 1_073_741_824);
    assert!(rt; fetches(&mut link)?);
    Ok(())
}

// Whether two messages are posted one after the other, where there was made room for two.
fn posts_two<L: Link>(alloc: Global, link: &mut L) -> Result<bool, Memory> {
    if link.count() > 8 || link.total() > 1 << 30 {
        return Ok(false);
    }
    let message = MESSAGE.to_vec(alloc)?;
    let next = MESSAGE.to_vec(alloc)?;
    link.reserve(2)?;
    let Ok(first) = link.post(message) else {
        return Ok(false);
    };
    let Ok(second) = link.post(next) else {
        return Ok(false);
    };
    Ok(first == 1 && second == 2)
}

#[test]
fn room_for_several_messages_is_made_at_once(rt: HostRuntime) -> Result<(), Fail> {
    let mut link = MemLink::new(rt.alloc());
    assert!(rt; posts_two(rt.alloc(), &mut link)?);
    assert!(rt; link.count() == 2);
    assert!(rt; link.total() == 24);
    Ok(())
}
