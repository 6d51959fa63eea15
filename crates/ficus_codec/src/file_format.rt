ghost use Rattle.std.specs.Prelude.{◌≡◌, ◌↔◌, ◌+◌, ◌≤◌, ◌++◌, ◌∷◌, [], length, take, drop, map, All, Contains, IsTrue, IfErr, OnErr, OnOk};
ghost use Rattle.ficus_file.specs.File.{HaveOneText};
ghost use Rattle.ficus_file.specs.Version.{AreCurrent};
ghost use Rattle.ficus_file.specs.declared.version.Version.{Version as VersionValue};
ghost use Rattle.std.specs.Int.{w32, w64, to_be_bytes, to_le_bytes};
ghost use Rattle.ficus_vectors.specs.Vector.{in_order, no_counts};
ghost use Rattle.ficus_formats.specs.Format.{Begins, Keeps, Reads, byte, number32, number64, id as id_format, times};
ghost use Rattle.ficus_codec.specs.Checks.{MayPrecede, IsBare, IsWhole};
ghost use Rattle.ficus_codec.specs.Formats.{kind, kind as kind_format, kind_number, count, counts, content, version, versions, file, file_fields};
ghost use Rattle.ficus_codec.specs.FormatsUnique.{unique-version, unique-file};
ghost use Rattle.ficus_durable_state.specs.Tables.{FitsCounts, FitsVersion, FitsFile};

use crate::entry_format::{is_issuable, passes_id};
use crate::known::{TableRow, WindowRow};
use ficus_durable_state::{FILE_LIMIT, UPDATE_LIMIT};
use ficus_file::{FileReplica, SharedFile, Version, Versions};
use ficus_formats::{
    ReadFault, Reader, Spelling, Window, WindowSpelling, id_and, put_bytes, put_long_string,
    put_run, read_run,
};
use ficus_ids::{FIXED_LIMIT, Id, Kind, Listed, Members, Memory, Sort};
use ficus_vectors::{Standing, Vector};
use std::alloc::Global;
use std::cmp::Ordering;

// The bytes in front of the versions.
const HEAD_ROOM: usize = 7;

// The bytes of what has no versions, with the counts of all eight.
const BARE_ROOM: usize = HEAD_ROOM + 4 * 8;

/// Reads a kind: its number in one byte.
pub fn read_kind(reader: &mut Reader<'_>) -> Result<Kind, ReadFault>
    ensures reads { Reads kind reader.old result reader.new }
    ensures unspelled { IfErr result (λ fault. fault ≡ ReadFault.Unspelled) }
{
    match reader.byte()? {
        0 => Ok(Kind::Dir),
        1 => Ok(Kind::Plain),
        2 => Ok(Kind::Lines),
        3 => Ok(Kind::Max),
        4 => Ok(Kind::Keep),
        5 => Ok(Kind::Symlink),
        _ => Err(ReadFault::Unspelled),
    }
}

// The number of a kind.
fn number_of(kind: Kind) -> u8
    ensures { result ≡ kind_number kind }
{
    kind as u8
}

fn read_count(reader: &mut Reader<'_>) -> Result<u32, ReadFault>
    ensures reads { Reads count reader.old result reader.new }
    ensures unspelled { IfErr result (λ fault. fault ≡ ReadFault.Unspelled) }
{
    let count = reader.number32()?;
    if count > UPDATE_LIMIT {
        return Err(ReadFault::Unspelled);
    }
    Ok(count)
}

// A count for each member. Those that aren't members have none.
fn read_counts(reader: &mut Reader<'_>, members: Members) -> Result<Vector, ReadFault>
    ensures reads { Reads (counts members) reader.old result reader.new }
    ensures unspelled { IfErr result (λ fault. fault ≡ ReadFault.Unspelled) }
{
    let mut counts = [0; 8];
    for index in 0..usize::from(members.count()) {
        counts[index] = read_count(reader)?;
    }
    Ok(Vector::from_counts(counts))
}

// The counts of all eight, each in four bytes.
fn counts_of(vector: Vector) -> [[u8; 4]; 8]
    ensures { result ≡ map (to_be_bytes w32) (in_order vector) }
{
    [
        vector.count(1).to_be_bytes(),
        vector.count(2).to_be_bytes(),
        vector.count(3).to_be_bytes(),
        vector.count(4).to_be_bytes(),
        vector.count(5).to_be_bytes(),
        vector.count(6).to_be_bytes(),
        vector.count(7).to_be_bytes(),
        vector.count(8).to_be_bytes(),
    ]
}

fn put_counts(out: &mut Vec<u8>, vector: Vector, members: Members) -> Result<(), Memory>
    ensures put { OnOk result (out.new.items ≡ out.old.items ++ (counts members).spell vector) }
    ensures kept { OnErr result (Keeps out.old.items out.new.items) }
{
    let all = counts_of(vector);
    let counted = &all[..usize::from(members.count())];
    put_bytes(out, counted.as_flattened())
}

fn read_content(alloc: Global, reader: &mut Reader<'_>) -> Result<Listed<u8>, ReadFault>
    ensures { Reads content reader.old result reader.new }
{
    let bytes = reader.long_string()?;
    if bytes.len() > FILE_LIMIT {
        return Err(ReadFault::Unspelled);
    }
    Ok(Listed::of(Vec::from_slice(alloc, bytes)?))
}

// How versions are spelled in a volume of so many members.
#[derive(Drop)]
pub(crate) struct VersionSpelling {
    pub(crate) members: Members,
}

impl Spelling for VersionSpelling {
    type Value = Version;

    ghost format = { λ s. version s.members };

    ghost unique = { λ s. unique-version s.members };

    fn read(&self, alloc: Global, reader: &mut Reader<'_>) -> Result<Version, ReadFault> {
        Ok(Version {
            vector: read_counts(reader, self.members)?,
            bytes: read_content(alloc, reader)?,
        })
    }

    fn put(&self, out: &mut Vec<u8>, value: &Version) -> Result<(), Memory> {
        put_counts(out, value.vector, self.members)?;
        put_long_string(out, value.bytes.items())
    }
}

// Whether each of the versions may stand before the next one.
fn may_precede(earlier: &[Version], next: &Version) -> bool
    ensures { IsTrue result ↔ All (λ one. MayPrecede one next.now) earlier.now }
{
    earlier.iter().all(|one| {
        one.vector.compare(next.vector) == Standing::Apart
            && one.vector.order(next.vector) == Ordering::Less
    })
}

// Whether the versions may be those of a file.
#[inline(never)]
fn are_current(versions: &[Version]) -> bool
    ensures { IsTrue result ↔ AreCurrent versions.now }
{
    if versions.is_empty() || versions.len() > 8 {
        return false;
    }
    for index in 0..versions.len() {
        let (earlier, rest) = versions.split_at(index);
        if !may_precede(earlier, &rest[0]) {
            return false;
        }
    }
    true
}

// Whether the file has no version, and nothing covered.
fn is_bare(file: &FileReplica) -> bool
    ensures { IsTrue result ↔ IsBare file.now }
{
    file.versions.items().is_empty() && file.covered == Vector::zero()
}

// Whether there is one version, with a text that may stay.
fn have_one_text(versions: &[Version]) -> bool
    ensures { IsTrue result ↔ HaveOneText versions.now }
{
    match versions {
        [version] => (1..=FIXED_LIMIT).contains(&version.bytes.items().len()),
        _ => false,
    }
}

// Whether what is a directory is bare, what is a file has the versions of one, and what has a text that stays has it
// alone.
#[inline(always)]
fn is_whole(file: &FileReplica) -> bool
    ensures { IsTrue result ↔ IsWhole file.now }
{
    let versions = file.versions.items();
    match file.kind.sort() {
        Sort::Directory => is_bare(file),
        Sort::Versioned => are_current(versions),
        Sort::Fixed => are_current(versions) && have_one_text(versions),
    }
}

// Whether the file, with versions and a cover that may be, may stand in tables.
#[inline(always)]
fn fits_file(file: &FileReplica, members: Members) -> bool
    requires versions { (version : VersionValue) → Contains file.now.versions version → FitsVersion members version }
    requires covered { FitsCounts members file.now.covered }
    ensures { IsTrue result ↔ FitsFile members file.now }
{
    is_issuable(file.id, members) && is_whole(file)
}

fn read_versions(
    alloc: Global,
    reader: &mut Reader<'_>,
    members: Members,
) -> Result<Versions, ReadFault>
    ensures { Reads (versions members) reader.old result reader.new }
{
    let count = reader.byte()?;
    if count == 0 {
        return Ok(Versions::none());
    }
    let versions = read_run(
        &VersionSpelling { members },
        alloc,
        reader,
        u32::from(count),
    )?;
    Ok(Versions::of(alloc, versions.into_vec())?)
}

// The fields of a file, each by itself.
fn read_fields(
    alloc: Global,
    reader: &mut Reader<'_>,
    members: Members,
) -> Result<FileReplica, ReadFault>
    ensures { Reads (file_fields members) reader.old result reader.new }
{
    Ok(FileReplica {
        id: reader.id()?,
        kind: read_kind(reader)?,
        versions: read_versions(alloc, reader, members)?,
        covered: read_counts(reader, members)?,
    })
}

// Passes a kind, if its spelling stands in front.
fn passes_kind(reader: &mut Reader<'_>, value: Kind) -> bool
    ensures { IsTrue result → Begins kind reader.old value reader.new }
{
    match read_kind(reader) {
        Ok(read) => read == value,
        Err(_) => false,
    }
}

// Passes a count, if it is 0.
fn passes_zero(reader: &mut Reader<'_>) -> bool
    ensures { IsTrue result → Begins number32 reader.old 0 reader.new }
{
    match reader.number32() {
        Ok(read) => read == 0,
        Err(_) => false,
    }
}

// Passes two counts at once, if both are 0.
fn passes_two_zeros(reader: &mut Reader<'_>) -> bool
    ensures { IsTrue result → Begins number64 reader.old 0 reader.new }
{
    match reader.number64() {
        Ok(read) => read == 0,
        Err(_) => false,
    }
}

// Passes counts of which each is 0, if their spelling stands in front.
fn passes_no_counts(reader: &mut Reader<'_>, members: Members) -> bool
    ensures { IsTrue result → Begins (counts members) reader.old no_counts reader.new }
{
    let count = members.count();
    for _ in 0..count / 2 {
        if !passes_two_zeros(reader) {
            return false;
        }
    }
    count % 2 == 0 || passes_zero(reader)
}

// Passes the counts of a vector that has some, if their spelling stands in front.
#[inline(never)]
fn passes_some_counts(reader: &mut Reader<'_>, value: Vector, members: Members) -> bool
    ensures { IsTrue result → Begins (counts members) reader.old value reader.new }
{
    match read_counts(reader, members) {
        Ok(read) => read == value,
        Err(_) => false,
    }
}

// Passes the counts of a vector, if their spelling stands in front. Mostly nothing is covered.
#[inline(always)]
fn passes_counts(reader: &mut Reader<'_>, value: Vector, members: Members) -> bool
    ensures { IsTrue result → Begins (counts members) reader.old value reader.new }
{
    if value == Vector::zero() {
        passes_no_counts(reader, members)
    } else {
        passes_some_counts(reader, value, members)
    }
}

// Passes the bytes of a version, if their spelling stands in front.
fn passes_content(reader: &mut Reader<'_>, value: &[u8]) -> bool
    ensures { IsTrue result → Begins content reader.old value.now reader.new }
{
    match reader.long_string() {
        Ok(read) => read.len() <= FILE_LIMIT && read == value,
        Err(_) => false,
    }
}

// Passes a version, if its spelling stands in front.
fn passes_version(reader: &mut Reader<'_>, value: &Version, members: Members) -> bool
    ensures { IsTrue result → Begins (version members) reader.old value.now reader.new }
{
    passes_counts(reader, value.vector, members) && passes_content(reader, value.bytes.items())
}

// Passes these versions, if their spellings stand in front.
#[inline(never)]
fn passes_run(reader: &mut Reader<'_>, values: &[Version], members: Members) -> bool
    ensures { IsTrue result → Begins (times (length values.now) (version members)) reader.old values.now reader.new }
{
    for value in values {
        if !passes_version(reader, value, members) {
            return false;
        }
    }
    true
}

// Passes versions behind their count, if their spelling stands in front.
fn passes_versions(reader: &mut Reader<'_>, values: &[Version], members: Members) -> bool
    ensures { IsTrue result → Begins (versions members) reader.old values.now reader.new }
{
    match reader.byte() {
        Ok(0) => values.is_empty(),
        Ok(count) => usize::from(count) == values.len() && passes_run(reader, values, members),
        Err(_) => false,
    }
}

// Passes the fields of a file, if their spelling stands in front.
fn passes_fields(reader: &mut Reader<'_>, file: &FileReplica, members: Members) -> bool
    ensures { IsTrue result → Begins (file_fields members) reader.old file.now reader.new }
{
    passes_id(reader, file.id)
        && passes_kind(reader, file.kind)
        && passes_versions(reader, file.versions.items(), members)
        && passes_counts(reader, file.covered, members)
}

// The number whose bytes, the low one first, stand before the versions: the identifier, the kind, and how many versions
// there are. Behind them is a zero.
#[inline(always)]
fn file_head(id: Id, kind: Kind, count: u8) -> u64
    ensures { to_le_bytes w64 result
        ≡ id_format.spell id ++ (kind_format.spell kind ++ (byte.spell count ++ byte.spell 0)) }
{
    id_and(id, number_of(kind), count)
}

// What has no versions, with the counts of all eight, in rows of four bytes behind a zero.
fn bare_rows(id: Id, kind: Kind, covered: Vector) -> [[u8; 4]; 10]
    ensures { result ≡ (0 ∷ take 3 (id_format.spell id)) ∷ (drop 3 (id_format.spell id) ++ kind_number kind ∷ 0 ∷ [])
        ∷ map (to_be_bytes w32) (in_order covered) }
{
    let [first, second, third, fourth] = id.number.to_be_bytes();
    let [one, two, three, four, five, six, seven, eight] = counts_of(covered);
    [
        [0, id.replica, first, second],
        [third, fourth, number_of(kind), 0],
        one,
        two,
        three,
        four,
        five,
        six,
        seven,
        eight,
    ]
}

// Appends what has no versions, at once.
fn put_bare(
    out: &mut Vec<u8>,
    id: Id,
    kind: Kind,
    covered: Vector,
    members: Members,
) -> Result<(), Memory>
    ensures put { OnOk result (out.new.items ≡ out.old.items
        ++ (id_format.spell id ++ (kind_format.spell kind ++ (byte.spell 0 ++ (counts members).spell covered)))) }
    ensures kept { OnErr result (Keeps out.old.items out.new.items) }
{
    let rows = bare_rows(id, kind, covered);
    let spelled = rows[..2 + usize::from(members.count())].as_flattened();
    put_bytes(out, &spelled[1..])
}

// Puts what has no versions, and nothing covered, into the window.
fn put_bare_in(window: &mut Window, id: Id, kind: Kind, members: Members)
    requires { length window.old + 39 ≤ 2048 }
    ensures { window.new ≡ window.old
        ++ (id_format.spell id ++ (kind_format.spell kind ++ (byte.spell 0 ++ (counts members).spell no_counts))) }
{
    window.put_number(file_head(id, kind, 0), HEAD_ROOM);
    window.put_front(&[0; 32], 4 * usize::from(members.count()));
}

// How files are spelled in a volume of so many members.
#[derive(Drop)]
struct FileSpelling {
    members: Members,
}

impl Spelling for FileSpelling {
    type Value = FileReplica;

    ghost format = { λ s. file s.members };

    ghost unique = { λ s. unique-file s.members };

    fn read(&self, alloc: Global, reader: &mut Reader<'_>) -> Result<FileReplica, ReadFault> {
        let file = read_fields(alloc, reader, self.members)?;
        if fits_file(&file, self.members) {
            Ok(file)
        } else {
            Err(ReadFault::Unspelled)
        }
    }

    fn put(&self, out: &mut Vec<u8>, value: &FileReplica) -> Result<(), Memory> {
        let members = self.members;
        let versions = value.versions.items();
        if versions.is_empty() {
            return put_bare(out, value.id, value.kind, value.covered, members);
        }
        let head = file_head(value.id, value.kind, versions.len() as u8).to_le_bytes();
        put_bytes(out, &head[..HEAD_ROOM])?;
        put_run(&VersionSpelling { members }, out, versions)?;
        put_counts(out, value.covered, members)
    }
}

// Appends a file behind what is in the window. Mostly a file goes into it, so this stands apart.
#[inline(never)]
fn put_behind(
    spelling: &FileSpelling,
    window: &mut Window,
    out: &mut Vec<u8>,
    value: &FileReplica,
) -> Result<(), Memory>
    requires { FitsFile spelling.now.members value.now }
    ensures put { OnOk result (out.new.items ++ window.new
        ≡ (out.old.items ++ window.old) ++ (file spelling.now.members).spell value.now) }
    ensures kept { Keeps out.old.items out.new.items }
{
    window.flush(out)?;
    spelling.put(out, value)
}

impl WindowSpelling for FileSpelling {
    #[inline(always)]
    fn put_in(
        &self,
        window: &mut Window,
        out: &mut Vec<u8>,
        value: &FileReplica,
    ) -> Result<(), Memory> {
        if value.versions.items().is_empty() {
            window.make_room(out, BARE_ROOM)?;
            put_bare_in(window, value.id, value.kind, self.members);
            Ok(())
        } else {
            put_behind(self, window, out, value)
        }
    }
}

impl TableRow for SharedFile {
    ghost format = { file };

    ghost unique = { unique-file };

    fn passes(&self, reader: &mut Reader<'_>, members: Members) -> bool {
        passes_fields(reader, self.file(), members)
    }

    fn read_row(
        alloc: Global,
        reader: &mut Reader<'_>,
        members: Members,
    ) -> Result<SharedFile, ReadFault> {
        let file = FileSpelling { members }.read(alloc, reader)?;
        Ok(SharedFile::of(alloc, file)?)
    }

    fn put_row(&self, out: &mut Vec<u8>, members: Members) -> Result<(), Memory> {
        FileSpelling { members }.put(out, self.file())
    }
}

impl WindowRow for SharedFile {
    #[inline(always)]
    fn put_row_in(
        &self,
        window: &mut Window,
        out: &mut Vec<u8>,
        members: Members,
    ) -> Result<(), Memory> {
        FileSpelling { members }.put_in(window, out, self.file())
    }
}
