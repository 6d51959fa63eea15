ghost use Rattle.std.specs.Prelude.{◌≡◌, ◌≤◌, [], IfNone, IfOk, IfSome, OnErr, OnOk};
ghost use Rattle.ficus_disk.specs.Crash.{Only};
ghost use Rattle.ficus_faults.specs.Faults.{Rose};
ghost use Rattle.ficus_member.specs.TagFile.{FileRests, ReadsTag, SpellsLine, SpellsNoTag, WritesTag, tag_line};

use ficus_disk::Disk;
use ficus_faults::Failed;
use ficus_opening::WorldFault;
use ficus_tag::{TAG_TEXT_SIZE, Tag};

/// How many bytes the file of a tag has: its text, and byte 10.
const FILE_SIZE: usize = TAG_TEXT_SIZE + 1;

/// Writes the tag to a file that is empty, and syncs it. `Store` comes only where the file failed.
pub(crate) fn write_tag<N: Disk>(file: &mut N, tag: Tag, me: u8) -> Result<(), WorldFault>
    requires empty { N.tells → N.seen file.old ≡ [] }
    ensures { WritesTag N.Disk tag me result file.old file.new }
{
    let line = line_of(tag);
    file.reserve(FILE_SIZE as u64)?;
    match write_line(file, &line) {
        Ok(()) => Ok(()),
        Err(Failed) => Err(WorldFault::Store(me)),
    }
}

// Writes the line, and syncs the file.
fn write_line<N: Disk>(file: &mut N, line: &[u8; FILE_SIZE]) -> Result<(), Failed>
    requires empty { N.tells → N.seen file.old ≡ [] }
    requires room { FILE_SIZE ≤ N.room file.old }
    ensures written { N.tells → OnOk result (N.seen file.new ≡ line.now) }
    ensures durable { N.tells → OnOk result (Only line.now (N.may_leave file.new)) }
    ensures failed { OnErr result (Rose (N.faults file.old) (N.faults file.new)) }
    ensures steady { OnOk result (N.faults file.new ≡ N.faults file.old) }
{
    file.write(0, line)?;
    file.sync()
}

/// The tag that the file holds. `Image` comes exactly where it holds none, and `Store` only where the file failed.
pub(crate) fn read_tag<N: Disk>(file: &mut N, me: u8) -> Result<Tag, WorldFault>
    ensures { ReadsTag N.Disk me result file.old file.new }
{
    match read_line(file) {
        Ok(Some(tag)) => Ok(tag),
        Ok(None) => Err(WorldFault::Image(me)),
        Err(Failed) => Err(WorldFault::Store(me)),
    }
}

// The tag that the file holds, if it holds one.
fn read_line<N: Disk>(file: &mut N) -> Result<Option<Tag>, Failed>
    ensures spelled { N.tells → IfOk result (λ found. IfSome found (SpellsLine (N.seen file.old))) }
    ensures none { N.tells → IfOk result (λ found. IfNone found (SpellsNoTag (N.seen file.old))) }
    ensures failed { OnErr result (Rose (N.faults file.old) (N.faults file.new)) }
    ensures steady { OnOk result (N.faults file.new ≡ N.faults file.old) }
    ensures rests { FileRests N.Disk file.old file.new }
{
    if file.size()? != FILE_SIZE as u64 {
        return Ok(None);
    }
    let mut line = [0; FILE_SIZE];
    file.read(0, &mut line)?;
    Ok(tag_in(&line))
}

// The tag that the line spells.
fn tag_in(line: &[u8; FILE_SIZE]) -> Option<Tag>
    ensures spelled { IfSome result (SpellsLine line.now) }
    ensures none { IfNone result (SpellsNoTag line.now) }
{
    if line[TAG_TEXT_SIZE] != b'\n' {
        return None;
    }
    Tag::read(&line[..TAG_TEXT_SIZE])
}

// The text of the tag, and byte 10.
fn line_of(tag: Tag) -> [u8; FILE_SIZE]
    ensures { result ≡ tag_line tag }
{
    let mut line = [b'\n'; FILE_SIZE];
    line[..TAG_TEXT_SIZE].copy_from_slice(&tag.text());
    line
}
