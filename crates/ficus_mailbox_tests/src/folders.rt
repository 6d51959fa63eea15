// The mailbox over folders of the system, below the folder that the tests run in.
use crate::in_memory::{Is, NAME, found};
use ficus_faults::Failed;
use ficus_folder_mailbox::FolderMailbox;
use ficus_mailbox::{LETTER_LIMIT, Mailbox};
use std::fs;
use std::test::Fail;

const FINDS: [(&[u8], Is); 8] = [
    (b"three", Is::Bytes(3, 97)),
    (b"empty", Is::Bytes(0, 0)),
    (b"most", Is::Bytes(LETTER_LIMIT, 7)),
    (b"more", Is::Oversized),
    (b"none", Is::Nothing),
    // A folder is no message, and nothing leads out of the inbox.
    (b"folder", Is::Failed),
    (b"../outside", Is::Nothing),
    (b"folder/within", Is::Nothing),
];

#[test]
fn a_folder_gives_what_came(rt: HostRuntime) -> Result<(), Fail> {
    let mut mailbox = FolderMailbox::new(rt, rt.alloc(), "came", 3)?;
    assert!(rt; found(rt.alloc(), &mut mailbox, b"three") == Is::Nothing);
    fs::create_dir_all(&rt, "came/3/in/folder")?;
    fs::write(&rt, "came/3/in/three", "abc")?;
    fs::write(&rt, "came/3/in/empty", "")?;
    fs::write(
        &rt,
        "came/3/in/most",
        vec![in rt.alloc(); 7u8; LETTER_LIMIT]?,
    )?;
    fs::write(
        &rt,
        "came/3/in/more",
        vec![in rt.alloc(); 7u8; LETTER_LIMIT + 1]?,
    )?;
    fs::write(&rt, "came/3/in/folder/within", "abc")?;
    fs::write(&rt, "came/3/outside", "abc")?;
    for (row, (name, is)) in FINDS.iter().enumerate() {
        assert!(rt; found(rt.alloc(), &mut mailbox, name) == *is, "row {row}");
    }
    assert!(rt; !fs::exists(&rt, "came/3/out")?);
    fs::remove_dir_all(&rt, "came")?;
    Ok(())
}

#[test]
fn a_folder_has_what_was_put(rt: HostRuntime) -> Result<(), Fail> {
    let mut mailbox = FolderMailbox::new(rt, rt.alloc(), "put", 2)?;
    fs::create_dir_all(&rt, "put/2/out")?;
    // What a kill has left beside it.
    fs::write(&rt, "put/2/out/.ask-2-1-17", "longer than the message")?;
    for message in &["first", "second", ""] {
        assert!(rt; mailbox.put(NAME, message.as_bytes()) == Ok(()));
        assert!(rt; fs::read_to_string(&rt, "put/2/out/ask-2-1-17")?.as_str() == *message);
        assert!(rt; !fs::exists(&rt, "put/2/out/.ask-2-1-17")?);
    }
    assert!(rt; !fs::exists(&rt, "put/2/in")?);
    fs::remove_dir_all(&rt, "put")?;
    Ok(())
}

#[test]
fn a_folder_that_cant_be_made_is_a_fault(rt: HostRuntime) -> Result<(), Fail> {
    let mut mailbox = FolderMailbox::new(rt, rt.alloc(), "blocked", 1)?;
    fs::create_dir_all(&rt, "blocked/1")?;
    fs::write(&rt, "blocked/1/out", "a file")?;
    assert!(rt; mailbox.put(NAME, b"message") == Err(Failed));
    fs::remove_file(&rt, "blocked/1/out")?;
    assert!(rt; mailbox.put(NAME, b"message") == Ok(()));
    assert!(rt; fs::read_to_string(&rt, "blocked/1/out/ask-2-1-17")?.as_str() == "message");
    fs::remove_dir_all(&rt, "blocked")?;
    Ok(())
}
