// The mailbox in memory.
use ficus_faults::Failed;
use ficus_ids::{Listed, Memory};
use ficus_mailbox::{Filed, FindFault, Found, LETTER_LIMIT, Mailbox, MemMailbox, MessageName};
use std::alloc::Global;
use std::test::Fail;

/// The name that the tests put.
pub const NAME: MessageName = MessageName::Ask {
    from: 2,
    to: 1,
    number: 17,
};

/// What is found, in short.
#[derive(Clone, Copy, PartialEq)]
pub enum Is {
    Nothing,
    Oversized,
    /// So many bytes, of which the first is this.
    Bytes(usize, u8),
    Failed,
    Memory,
}

/// What the mailbox has under this name.
pub fn found<M: Mailbox>(alloc: Global, mailbox: &mut M, name: &[u8]) -> Is {
    match mailbox.find(alloc, name) {
        Ok(Found::Nothing) => Is::Nothing,
        Ok(Found::Oversized) => Is::Oversized,
        Ok(Found::Bytes(bytes)) => match bytes.items() {
            [] => Is::Bytes(0, 0),
            [first, ..] => Is::Bytes(bytes.items().len(), *first),
        },
        Err(FindFault::Failed) => Is::Failed,
        Err(FindFault::Memory) => Is::Memory,
    }
}

fn filed(alloc: Global, name: &[u8], size: usize, byte: u8) -> Result<Filed, Memory> {
    Ok(Filed {
        name: Listed::of(name.to_vec(alloc)?),
        bytes: Listed::of(vec![in alloc; byte; size]?),
    })
}

const FINDS: [(&[u8], Is); 7] = [
    (b"a", Is::Bytes(3, 1)),
    (b"b", Is::Failed),
    (b"b", Is::Bytes(LETTER_LIMIT, 2)),
    (b"c", Is::Oversized),
    (b"../a", Is::Nothing),
    (b"d", Is::Nothing),
    (b"a", Is::Bytes(3, 1)),
];

// A mailbox of these three, and a fourth that no name leads to, whose second call fails and fourth put has no room.
fn mailbox(alloc: Global) -> Result<MemMailbox, Memory> {
    let mut inbox = Vec::new(alloc);
    inbox.push(filed(alloc, b"a", 3, 1)?)?;
    inbox.push(filed(alloc, b"b", LETTER_LIMIT, 2)?)?;
    inbox.push(filed(alloc, b"c", LETTER_LIMIT + 1, 3)?)?;
    inbox.push(filed(alloc, b"../a", 3, 4)?)?;
    MemMailbox::new(alloc, inbox, 2, [2].to_vec(alloc)?)
}

#[test]
fn a_mailbox_in_memory_gives_what_came(rt: HostRuntime) -> Result<(), Fail> {
    let mut mailbox = mailbox(rt.alloc())?;
    for (row, (name, is)) in FINDS.iter().enumerate() {
        assert!(rt; found(rt.alloc(), &mut mailbox, name) == *is, "row {row}");
    }
    mailbox.bring(filed(rt.alloc(), b"d", 1, 5)?)?;
    assert!(rt; found(rt.alloc(), &mut mailbox, b"d") == Is::Bytes(1, 5));
    Ok(())
}

#[test]
fn a_mailbox_in_memory_tells_what_was_put(rt: HostRuntime) -> Result<(), Fail> {
    let mut mailbox = mailbox(rt.alloc())?;
    assert!(rt; mailbox.put(NAME, b"one") == Ok(()));
    assert!(rt; mailbox.put(NAME, b"two") == Err(Failed));
    assert!(rt; mailbox.put(NAME, &[0; LETTER_LIMIT + 1]) == Err(Failed));
    assert!(rt; mailbox.put(NAME, b"two") == Ok(()));
    assert!(rt; mailbox.put(NAME, b"three") == Err(Failed));
    let posted = mailbox.posted();
    assert!(rt; posted.len() == 2);
    for (letter, bytes) in posted.iter().zip(&["one", "two"]) {
        assert!(rt; letter.name() == NAME);
        assert!(rt; letter.bytes() == bytes.as_bytes());
    }
    Ok(())
}
