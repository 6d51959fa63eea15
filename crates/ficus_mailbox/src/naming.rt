ghost use Rattle.std.specs.Prelude.{◌≡◌, ◌↔◌, IsTrue, IfNone, IfSome};
ghost use Rattle.ficus_mailbox.specs.FileName.{IsFileName, IsFileNameByte, StaysWithin};

/// The most bytes that the name of a file has.
pub const FILE_NAME_LIMIT: usize = 255;

/// The name of a file in a folder, of these bytes: a text of 1 to 255 bytes without byte 0 and `/`, and neither `.` nor
/// `..`, so that it leads nowhere else. `None` comes exactly where they aren't one.
pub fn file_name(bytes: &[u8]) -> Option<&str>
    ensures found { IfSome result (λ name. name.now ≡ bytes.now) }
    ensures is { IfSome result (λ _. IsFileName bytes.now) }
    ensures none { IfNone result (IsFileName bytes.now → ⊥) }
{
    if !stays_within(bytes) {
        return None;
    }
    str::from_utf8(bytes).ok()
}

// Whether the bytes, as a text, are the name of a file in a folder.
fn stays_within(bytes: &[u8]) -> bool
    ensures { IsTrue result ↔ StaysWithin bytes.now }
{
    !bytes.is_empty()
        && bytes.len() <= FILE_NAME_LIMIT
        && bytes != b".".as_slice()
        && bytes != b"..".as_slice()
        && bytes.iter().all(|&byte| is_file_name_byte(byte))
}

fn is_file_name_byte(byte: u8) -> bool
    ensures { IsTrue result ↔ IsFileNameByte byte }
{
    byte != 0 && byte != b'/'
}
