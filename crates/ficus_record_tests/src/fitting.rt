ghost use Rattle.std.specs.Prelude.{IfOk, OnOk};
ghost use Rattle.ficus_durable_state.specs.Saved.{FitsImage};

use crate::steps::{fresh, plays, why_not_applied};
use ficus_ids::Refusal;
use ficus_record::RecordFault;
use ficus_replica::Replica;
use std::alloc::{AllocError, Global};
use std::test::Fail;

// After it replica 1 has made the directory 1.1, `d`, and the file 1.2, `f`. It may make one update more, and write
// five bytes.
const BEFORE: &str = "1 mkdir /d\n1 create /f plain\n";

// Bodies of records, and whether each fits that replica.
const RECORDS: &[(&[u8], bool)] = &[
    // Make `x`, a plain file: in the root, in the directory, in the file, in what isn't held.
    (b"\x01\0\0\0\0\0\x01x\x01", true),
    (b"\x01\x01\0\0\0\x01\x01x\x01", true),
    (b"\x01\x01\0\0\0\x02\x01x\x01", false),
    (b"\x01\x01\0\0\0\x03\x01x\x01", false),
    // Make `x`, a symbolic link with a text of five bytes, of six, and in the file.
    (b"\x0d\0\0\0\0\0\x01x\0\x05hello", true),
    (b"\x0d\0\0\0\0\0\x01x\0\x06hello!", false),
    (b"\x0d\x01\0\0\0\x02\x01x\0\x05hello", false),
    // Link `x`: to the file, to the directory, in the file.
    (b"\x02\0\0\0\0\0\x01x\x01\0\0\0\x02", true),
    (b"\x02\0\0\0\0\0\x01x\x01\0\0\0\x01", false),
    (b"\x02\x01\0\0\0\x02\x01x\x01\0\0\0\x02", false),
    // Remove: the entry, no entry, one that leads elsewhere, one that isn't held, that one and another.
    (b"\x03\x01\0\0\0\x02\0\0\0\x01\x01\0\0\0\x02", true),
    (b"\x03\x01\0\0\0\x02\0\0\0\0", false),
    (b"\x03\x01\0\0\0\x02\0\0\0\x01\x01\0\0\0\x01", false),
    (b"\x03\x01\0\0\0\x02\0\0\0\x01\x02\0\0\0\x02", false),
    (
        b"\x03\x01\0\0\0\x02\0\0\0\x02\x01\0\0\0\x01\x01\0\0\0\x02",
        false,
    ),
    // Move the file into the directory as `x`, the same from no entry, and into itself.
    (
        b"\x04\x01\0\0\0\x02\x01\0\0\0\x01\x01x\0\0\0\x01\x01\0\0\0\x02",
        true,
    ),
    (b"\x04\x01\0\0\0\x02\x01\0\0\0\x01\x01x\0\0\0\0", false),
    (
        b"\x04\x01\0\0\0\x02\x01\0\0\0\x02\x01x\0\0\0\x01\x01\0\0\0\x02",
        false,
    ),
    // Write five bytes and six. Settle the file and the directory. Resolve the file and what isn't held.
    (b"\x05\x01\0\0\0\x02\0\x05hello", true),
    (b"\x05\x01\0\0\0\x02\0\x06hello!", false),
    (b"\x06\x01\0\0\0\x02\0\x01y", true),
    (b"\x06\x01\0\0\0\x01\0\x01y", false),
    (b"\x07\x01\0\0\0\x02\0\0", true),
    (b"\x07\x01\0\0\0\x03\0\0", false),
    // Adopt the directory and the file as `x`, what isn't held, and into what isn't.
    (b"\x08\x01\0\0\0\x01\0\0\0\0\0\x01x", true),
    (b"\x08\x01\0\0\0\x02\x01\0\0\0\x01\x01x", true),
    (b"\x08\x01\0\0\0\x03\0\0\0\0\0\x01x", false),
    (b"\x08\x01\0\0\0\x02\x02\0\0\0\x01\x01x", false),
    // Discard the file, and the directory.
    (b"\x09\x01\0\0\0\x02", true),
    (b"\x09\x01\0\0\0\x01", false),
    // Ask.
    (b"\x0a", true),
    // Accept nothing; a directory of the peer's; one of its own that it hasn't made.
    (b"\x0b\0\0\0\0\0\0\0\0", true),
    (
        b"\x0b\0\0\0\0\0\0\0\x01\x02\0\0\0\x01\0\0\0\0\0\0\0\0\0\0",
        true,
    ),
    (
        b"\x0b\0\0\0\0\0\0\0\x01\x01\0\0\0\x03\0\0\0\0\0\0\0\0\0\0",
        false,
    ),
    // Collect.
    (b"\x0c", true),
];

// That replica.
fn before(alloc: Global) -> Result<Replica, Refusal>
    ensures { IfOk result (λ replica. FitsImage replica.saved) }
{
    let mut one = fresh(alloc, 1, 3, 5)?;
    plays_before(alloc, &mut one)?;
    Ok(one)
}

fn plays_before(alloc: Global, one: &mut Replica) -> Result<(), Refusal>
    requires { FitsImage one.old.saved }
    ensures { OnOk result (FitsImage one.new.saved) }
{
    let mut two = fresh(alloc, 2, 3, 5)?;
    plays(alloc, one, &mut two, BEFORE)
}

// The place of the first record of the table that doesn't fit the replica as it says, if there is one.
fn first_fitting_otherwise(alloc: Global, replica: &Replica) -> Option<usize>
    requires { FitsImage replica.now.saved }
{
    for (place, (body, fits)) in RECORDS.iter().enumerate() {
        let expected = if *fits {
            None
        } else {
            Some(RecordFault::Unfit)
        };
        if why_not_applied(alloc, replica, body) != expected {
            return Some(place);
        }
    }
    None
}

#[test]
fn records_fit_by_the_table(rt: HostRuntime) -> Result<(), Fail> {
    let replica = before(rt.alloc())?;
    let place = first_fitting_otherwise(rt.alloc(), &replica);
    assert!(rt; place.is_none(), "{place:?}");
    Ok(())
}

fn is_no_record(alloc: Global, replica: &Replica, bytes: &[u8]) -> bool
    requires { FitsImage replica.now.saved }
{
    why_not_applied(alloc, replica, bytes) == Some(RecordFault::NotRecord)
}

// The length of the first front of the record that is one too, if there is any.
fn first_front(alloc: Global, replica: &Replica, body: &[u8]) -> Option<usize>
    requires { FitsImage replica.now.saved }
{
    for end in 0..body.len() {
        if !is_no_record(alloc, replica, &body[..end]) {
            return Some(end);
        }
    }
    None
}

// The first record with such a front, and the length of that.
fn first_with_front(alloc: Global, replica: &Replica) -> Option<(usize, usize)>
    requires { FitsImage replica.now.saved }
{
    for (place, (body, _)) in RECORDS.iter().enumerate() {
        if let Some(length) = first_front(alloc, replica, body) {
            return Some((place, length));
        }
    }
    None
}

#[test]
fn torn_bytes_are_no_record(rt: HostRuntime) -> Result<(), Fail> {
    let replica = before(rt.alloc())?;
    let front = first_with_front(rt.alloc(), &replica);
    assert!(rt; front.is_none(), "{front:?}");
    Ok(())
}

fn is_no_record_with_byte_behind(
    alloc: Global,
    replica: &Replica,
    body: &[u8],
) -> Result<bool, AllocError>
    requires { FitsImage replica.now.saved }
{
    let mut longer = body.to_vec(alloc)?;
    longer.push(0)?;
    Ok(is_no_record(alloc, replica, &longer))
}

// The first record that is one with a byte behind it too, if there is any.
fn first_with_byte_behind(alloc: Global, replica: &Replica) -> Result<Option<usize>, AllocError>
    requires { FitsImage replica.now.saved }
{
    for (place, (body, _)) in RECORDS.iter().enumerate() {
        if !is_no_record_with_byte_behind(alloc, replica, body)? {
            return Ok(Some(place));
        }
    }
    Ok(None)
}

#[test]
fn a_record_with_a_byte_behind_it_is_none(rt: HostRuntime) -> Result<(), Fail> {
    let replica = before(rt.alloc())?;
    let place = first_with_byte_behind(rt.alloc(), &replica)?;
    assert!(rt; place.is_none(), "{place:?}");
    Ok(())
}
