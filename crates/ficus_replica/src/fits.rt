use crate::Replica;
use ficus_durable_state::FILE_LIMIT;
use ficus_entry::Entry;
use ficus_file::FileReplica;
use ficus_ids::{Id, Kind, ROOT, Sort};
use ficus_model::Op;

// Which operations fit what is held, as records have to.
impl Replica {
    ghost use Rattle.std.specs.Prelude.{◌≡◌, ◌≢◌, ◌↔◌, ◌+◌, ◌≤◌, length, IsTrue};
    ghost use Rattle.ficus_file.specs.Files.{Holds, HoldsFile};
    ghost use Rattle.ficus_ids.specs.Kind.{sort_of};
    ghost use Rattle.ficus_ids.specs.declared.kind.Sort.TheVariants.{Versioned};
    ghost use Rattle.ficus_ids.specs.declared.kind.Kind.TheVariants.{Dir};
    ghost use Rattle.ficus_durable_state.specs.Saved.{FitsImage};
    ghost use Rattle.ficus_replica.specs.Effect.{MayWrite};
    ghost use Rattle.ficus_replica.specs.Makes.{AreNames, FitsOpIn, FitsUpdate, IsFile, IsNameOf, IsPlace};

    /// Whether the operation fits what is held, and an update is left for it.
    pub(crate) fn fits_update(&self, op: &Op) -> bool
        requires { FitsImage self.now.saved }
        ensures { IsTrue result ↔ FitsUpdate self.now.saved op.now }
    {
        self.saved.next <= self.saved.ids && self.fits_op(op)
    }

    // Whether the operation fits the tables that are held, and the bytes that are left.
    fn fits_op(&self, op: &Op) -> bool
        requires { FitsImage self.now.saved }
        ensures { IsTrue result ↔ FitsOpIn self.now.saved op.now }
    {
        match op {
            Op::Make { dir, text, .. } => self.is_place(*dir) && self.has_left(text.items()),
            Op::Link { dir, target, .. } => self.is_place(*dir) && self.holds_file(*target),
            Op::Remove { entries, target } => self.are_names(entries.items(), *target),
            Op::Move {
                entries,
                dir,
                target,
                ..
            } => self.are_names(entries.items(), *target) && self.is_place(*dir),
            Op::Write { file, bytes } => self.may_write(*file, bytes.items()),
            Op::Settle { file, bytes } => self.may_write(*file, bytes.items()),
            Op::Resolve { file, bytes } => self.may_write(*file, bytes.items()),
            Op::Adopt { file, dir, .. } => self.is_place(*dir) && self.holds(*file),
            Op::Discard { file } => self.holds_file(*file),
        }
    }

    // Whether new entries may lie in the directory.
    fn is_place(&self, dir: Id) -> bool
        ensures { IsTrue result ↔ IsPlace self.now.saved dir }
    {
        dir == ROOT || self.holds_directory(dir)
    }

    // Whether a directory with the identifier is held.
    fn holds_directory(&self, id: Id) -> bool
        ensures { IsTrue result ↔ HoldsFile self.now.saved.files id (λ held. held.kind ≡ Dir) }
    {
        match self.saved.files.get(id) {
            Some(file) => is_directory(file),
            None => false,
        }
    }

    // Whether a file with the identifier is held.
    fn holds_file(&self, id: Id) -> bool
        ensures { IsTrue result ↔ IsFile self.now.saved id }
    {
        match self.saved.files.get(id) {
            Some(file) => is_file(file),
            None => false,
        }
    }

    // Whether a file or a directory with the identifier is held.
    fn holds(&self, id: Id) -> bool
        ensures { IsTrue result ↔ Holds self.now.saved.files id }
    {
        self.saved.files.get(id).is_some()
    }

    // Whether there is an entry, and each of them is live and leads to the target.
    fn are_names(&self, entries: &[Id], target: Id) -> bool
        ensures { IsTrue result ↔ AreNames self.now.saved entries.now target }
    {
        !entries.is_empty() && entries.iter().all(|id| self.is_name_of(*id, target))
    }

    // Whether a live entry has the identifier and leads to the target.
    fn is_name_of(&self, id: Id, target: Id) -> bool
        ensures { IsTrue result ↔ IsNameOf self.now.saved target id }
    {
        match self.saved.entries.get(id) {
            Some(entry) => leads_to(entry, target),
            None => false,
        }
    }

    // Whether a file whose versions change is held under the identifier.
    fn holds_versioned(&self, id: Id) -> bool
        ensures { IsTrue result
            ↔ HoldsFile self.now.saved.files id (λ held. sort_of held.kind ≡ Versioned) }
    {
        match self.saved.files.get(id) {
            Some(file) => is_versioned(file),
            None => false,
        }
    }

    // Whether so many bytes are left.
    fn has_left(&self, bytes: &[u8]) -> bool
        requires { FitsImage self.now.saved }
        ensures { IsTrue result ↔ (self.now.saved.used + length bytes.now ≤ self.now.saved.bytes) }
    {
        bytes.len() <= (self.saved.bytes - self.saved.used) as usize
    }

    // Whether the file is held, its versions change, and so many bytes fit it and are left.
    fn may_write(&self, file: Id, bytes: &[u8]) -> bool
        requires { FitsImage self.now.saved }
        ensures { IsTrue result ↔ MayWrite self.now.saved file bytes.now }
    {
        bytes.len() <= FILE_LIMIT && self.has_left(bytes) && self.holds_versioned(file)
    }
}

ghost use Rattle.std.specs.Prelude.{◌≡◌, ◌≢◌, ◌↔◌, IsTrue};
ghost use Rattle.ficus_entry.specs.declared.entry.State.TheVariants.{Live};
ghost use Rattle.ficus_ids.specs.Kind.{sort_of};
ghost use Rattle.ficus_ids.specs.declared.kind.Kind.TheVariants.{Dir};
ghost use Rattle.ficus_ids.specs.declared.kind.Sort.TheVariants.{Versioned};

fn is_directory(file: &FileReplica) -> bool
    ensures { IsTrue result ↔ (file.now.kind ≡ Dir) }
{
    file.kind == Kind::Dir
}

fn is_versioned(file: &FileReplica) -> bool
    ensures { IsTrue result ↔ (sort_of file.now.kind ≡ Versioned) }
{
    file.kind.sort() == Sort::Versioned
}

fn is_file(file: &FileReplica) -> bool
    ensures { IsTrue result ↔ (file.now.kind ≢ Dir) }
{
    file.kind != Kind::Dir
}

// Whether the entry is live and leads to the target.
fn leads_to(entry: &Entry, target: Id) -> bool
    ensures { IsTrue result ↔ ((entry.now.state ≡ Live) × (entry.now.target ≡ target)) }
{
    entry.is_live() && entry.target == target
}
