use crate::fault::Fault;
use ficus_path::{Path, read_path, write_path};
use std::alloc::Global;
use std::test::Fail;

// Whether a path is spelled so.
fn is_spelled(alloc: Global, path: &Path, text: &str) -> Result<bool, Fault> {
    let copy = path.copy(alloc)?;
    let spelling = write_path(alloc, &copy)?;
    Ok(spelling.as_slice() == text.as_bytes())
}

// Whether a copy of the path that the text spells is spelled so too.
fn is_its_spelling(alloc: Global, text: &str) -> Result<bool, Fault> {
    let path = read_path(alloc, text.as_bytes())?;
    is_spelled(alloc, &path, text)
}

const SPELLINGS: &[&str] = &[
    "/",
    "/a/b",
    "/a#2.3",
    "/a#8.4294967295/b",
    "/my\\x20notes",
    "/\\\\/\\n/\\x7f/\\x01",
    "/gr\u{fc}n",
    "/.../.a",
];

#[test]
fn paths_are_written_as_they_were_read(rt: HostRuntime) -> Result<(), Fail> {
    for &text in SPELLINGS {
        let is = is_its_spelling(rt.alloc(), text)?;
        assert!(rt; is, "{text}");
    }
    Ok(())
}
