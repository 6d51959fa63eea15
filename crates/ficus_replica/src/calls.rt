use crate::{Next, Replica};
use ficus_entry::{Entries, Entry};
use ficus_file::{Files, Orphan, Version};
use ficus_ids::{Id, Kind, Memory, Refusal};
use ficus_names::{Clashes, Line};
use ficus_path::Path;
use std::alloc::Global;

// The calls of a replica, one for each change and each look, with a path and bytes that the caller lends. What each of
// them gives is what `change` or `look` gives of the same: the rule that stands in the row of that command.
impl Replica {
    ghost use Rattle.std.specs.Prelude.{◌≡◌, ◌↔◌, ◌-◌, ◌^◌, ◌<◌, ◌≤◌, [], length, IfOk, IsTrue, Ok};
    ghost use Rattle.ficus_ids.specs.Kind.{FitsKind};
    ghost use Rattle.ficus_deciding.specs.View.{tables_view};
    ghost use Rattle.ficus_durable_state.specs.Saved.{FitsImage};
    ghost use Rattle.ficus_commands.specs.declared.change.Change.TheVariants.{Create as Creates, Symlink as Symlinks, Write as Writes, Settle as Settles, Resolve as Resolves, Rm as Removes, Ln as Links, Mv as Moves, Adopt as Adopts, Discard as Discards};
    ghost use Rattle.ficus_commands.specs.declared.look.Look.TheVariants.{Ls as Lists, Read as Reads, Versions as TellsVersions, ReadLink as ReadsLink, Tree as TellsTree, Conflicts as TellsConflicts, Orphans as TellsOrphans, Detached as TellsDetached, Marks as TellsMarks};
    ghost use Rattle.ficus_commands.specs.declared.told.Told.TheVariants.{Text as ToldText, Names as ToldNames, Tree as ToldTree, Versions as ToldVersions, Conflicts as ToldConflicts, Orphans as ToldOrphans, Detached as ToldDetached, Marks as ToldMarks};
    ghost use Rattle.ficus_path.specs.Path.{IsEntry, IsNew};
    ghost use Rattle.ficus_rules.specs.Alike.{AreAlike};
    ghost use Rattle.ficus_replica.specs.Change.{ChangeGives};
    ghost use Rattle.ficus_replica.specs.Look.{LookGives, LookGivesAs};

    /// Makes an object of the kind, a directory or a file without bytes and no symbolic link, at the new path. Refused
    /// as the walk to the parent is; with `Exists` exactly where a live entry of the parent has the name; with `Spent`
    /// exactly where the replica has made all its updates.
    pub fn make(&self, alloc: Global, path: &Path, kind: Kind) -> Result<Next, Refusal>
        requires new { IsNew path.now }
        requires kind { FitsKind kind [] }
        requires fits { FitsImage self.now.saved }
        requires generation { self.now.saved.generation < 2 ^ 63 - 1 }
        ensures gives { ChangeGives self.now (Creates path.now kind) result }
        ensures fits { IfOk result (λ next. FitsImage next.replica.saved) }
    {
        self.done(alloc, ficus_deciding::make(alloc, &self.saved, path, kind))
    }

    /// Makes a symbolic link with this text, which isn't empty, at the new path. Refused as the walk to the parent is;
    /// with `Exists` as `make` is; with `TooLong` exactly where the text has more than 1,024 bytes; with `Spent` as
    /// `make` is; with `Quota` exactly where the replica may not write so many bytes more.
    pub fn symlink(&self, alloc: Global, path: &Path, text: &[u8]) -> Result<Next, Refusal>
        requires new { IsNew path.now }
        requires some { 1 ≤ length text.now }
        requires fits { FitsImage self.now.saved }
        requires generation { self.now.saved.generation < 2 ^ 63 - 1 }
        ensures gives { ChangeGives self.now (Symlinks path.now text.now) result }
        ensures fits { IfOk result (λ next. FitsImage next.replica.saved) }
    {
        self.done(
            alloc,
            ficus_deciding::symlink(alloc, &self.saved, path, text),
        )
    }

    /// Gives the file at the path these bytes. Refused as the walk is; with `IsDir` exactly where the object is a
    /// directory; with `IsLink` exactly where it is a symbolic link; with `Conflict` exactly where the file is in
    /// conflict; with `TooLong` exactly where there are more than 16,384 bytes; with `Spent` as `make` is; with `Quota`
    /// exactly where the replica may not write so many bytes more.
    pub fn write(&self, alloc: Global, path: &Path, bytes: &[u8]) -> Result<Next, Refusal>
        requires fits { FitsImage self.now.saved }
        requires generation { self.now.saved.generation < 2 ^ 63 - 1 }
        ensures gives { ChangeGives self.now (Writes path.now bytes.now) result }
        ensures fits { IfOk result (λ next. FitsImage next.replica.saved) }
    {
        self.done(
            alloc,
            ficus_deciding::write(alloc, &self.saved, path, bytes),
        )
    }

    /// Ends the conflict of the file at the path by these bytes. Refused as `write` is, but with `NoConflict` exactly
    /// where the file isn't in conflict in place of `Conflict`.
    pub fn settle(&self, alloc: Global, path: &Path, bytes: &[u8]) -> Result<Next, Refusal>
        requires fits { FitsImage self.now.saved }
        requires generation { self.now.saved.generation < 2 ^ 63 - 1 }
        ensures gives { ChangeGives self.now (Settles path.now bytes.now) result }
        ensures fits { IfOk result (λ next. FitsImage next.replica.saved) }
    {
        self.done(
            alloc,
            ficus_deciding::settle(alloc, &self.saved, path, bytes),
        )
    }

    /// Ends the conflict of the file at the path by what the resolver of its kind makes of its versions. Refused as
    /// `settle` is by that text, and before the limits with `Declined` exactly where the resolver declines.
    pub fn resolve(&self, alloc: Global, path: &Path) -> Result<Next, Refusal>
        requires fits { FitsImage self.now.saved }
        requires generation { self.now.saved.generation < 2 ^ 63 - 1 }
        ensures gives { ChangeGives self.now (Resolves path.now) result }
        ensures fits { IfOk result (λ next. FitsImage next.replica.saved) }
    {
        self.done(alloc, ficus_deciding::resolve(alloc, &self.saved, path))
    }

    /// Removes the name at the path from its object: all live entries of the directory that have this name and lead to
    /// this object. Refused as the walk is; with `NotEmpty` exactly where the object is a directory with a live entry
    /// in it, and every live name of it is the one to be removed; with `Spent` as `make` is.
    pub fn remove(&self, alloc: Global, path: &Path) -> Result<Next, Refusal>
        requires entry { IsEntry path.now }
        requires fits { FitsImage self.now.saved }
        requires generation { self.now.saved.generation < 2 ^ 63 - 1 }
        ensures gives { ChangeGives self.now (Removes path.now) result }
        ensures fits { IfOk result (λ next. FitsImage next.replica.saved) }
    {
        self.done(alloc, ficus_deciding::remove(&self.saved, path))
    }

    /// Gives the file at the path `from` the new path `path` as a further name. Refused as the walk along `from` is; as
    /// the walk to the parent of `path` is; with `IsDir` exactly where the object is a directory; with `Exists` and
    /// `Spent` as `make` is.
    pub fn link(&self, alloc: Global, from: &Path, path: &Path) -> Result<Next, Refusal>
        requires entry { IsEntry from.now }
        requires new { IsNew path.now }
        requires fits { FitsImage self.now.saved }
        requires generation { self.now.saved.generation < 2 ^ 63 - 1 }
        ensures gives { ChangeGives self.now (Links from.now path.now) result }
        ensures fits { IfOk result (λ next. FitsImage next.replica.saved) }
    {
        self.done(alloc, ficus_deciding::link(&self.saved, from, path))
    }

    /// Gives the object at the path `from` the new path `path` in place of this name: it stays the same object, with
    /// what lies in it and with its versions. Refused as the walk along `from` is; as the walk to the parent of `path`
    /// is; with `IntoSelf` exactly where the object is a directory, and the new parent is it or lies below it; with
    /// `Exists` and `Spent` as `make` is.
    pub fn rename(&self, alloc: Global, from: &Path, path: &Path) -> Result<Next, Refusal>
        requires entry { IsEntry from.now }
        requires new { IsNew path.now }
        requires fits { FitsImage self.now.saved }
        requires generation { self.now.saved.generation < 2 ^ 63 - 1 }
        ensures gives { ChangeGives self.now (Moves from.now path.now) result }
        ensures fits { IfOk result (λ next. FitsImage next.replica.saved) }
    {
        self.done(
            alloc,
            ficus_deciding::rename(alloc, &self.saved, from, path),
        )
    }

    /// Gives the orphan the new path as its name. Refused with `NotOrphan` exactly where no orphan has this identifier;
    /// as the walk to the parent of the path is; with `IntoSelf` exactly where the orphan is a directory, and the new
    /// parent is it or lies below it; with `Exists` and `Spent` as `make` is.
    pub fn adopt(&self, alloc: Global, orphan: Id, path: &Path) -> Result<Next, Refusal>
        requires new { IsNew path.now }
        requires fits { FitsImage self.now.saved }
        requires generation { self.now.saved.generation < 2 ^ 63 - 1 }
        ensures gives { ChangeGives self.now (Adopts orphan path.now) result }
        ensures fits { IfOk result (λ next. FitsImage next.replica.saved) }
    {
        self.done(
            alloc,
            ficus_deciding::adopt(alloc, &self.saved, orphan, path),
        )
    }

    /// Gives up the orphan, a file: all its versions are covered, and an entry of the attic, removed at once, tells the
    /// others of it. Refused with `NotOrphan` as `adopt` is; with `IsDir` exactly where the orphan is a directory; with
    /// `Spent` as `make` is.
    pub fn discard(&self, alloc: Global, orphan: Id) -> Result<Next, Refusal>
        requires fits { FitsImage self.now.saved }
        requires generation { self.now.saved.generation < 2 ^ 63 - 1 }
        ensures gives { ChangeGives self.now (Discards orphan) result }
        ensures fits { IfOk result (λ next. FitsImage next.replica.saved) }
    {
        self.done(alloc, ficus_deciding::discard(&self.saved, orphan))
    }

    /// The names that the directory at the path shows, by name, then by object. Refused as the walk is; with `NotDir`
    /// exactly where the object is a file.
    pub fn list(&self, alloc: Global, path: &Path) -> Result<Vec<Line>, Refusal>
        requires { FitsImage self.now.saved }
        ensures { LookGivesAs self.now (Lists path.now) (λ lines. ToldNames lines.items) result }
    {
        ficus_deciding::list(alloc, &self.saved, path)
    }

    /// The bytes of the file at the path. Refused as the walk is; with `IsDir` exactly where the object is a directory;
    /// with `IsLink` exactly where it is a symbolic link; with `Conflict` exactly where the file is in conflict.
    pub fn read(&self, alloc: Global, path: &Path) -> Result<Vec<u8>, Refusal>
        requires { FitsImage self.now.saved }
        ensures { LookGivesAs self.now (Reads path.now) (λ bytes. ToldText bytes.items) result }
    {
        ficus_deciding::read(alloc, &self.saved, path)
    }

    /// The versions of the file at the path, in the order of vectors. Refused as the walk is; with `IsDir` exactly
    /// where the object is a directory; with `IsLink` exactly where it is a symbolic link.
    pub fn versions(&self, alloc: Global, path: &Path) -> Result<Vec<Version>, Refusal>
        requires { FitsImage self.now.saved }
        ensures { LookGivesAs self.now (TellsVersions path.now)
            (λ list. ToldVersions self.now.saved.members list.items) result }
    {
        ficus_deciding::versions(alloc, &self.saved, path)
    }

    /// The text of the symbolic link at the path. Refused as the walk is; with `NotLink` exactly where the object is
    /// none.
    pub fn readlink(&self, alloc: Global, path: &Path) -> Result<Vec<u8>, Refusal>
        requires { FitsImage self.now.saved }
        ensures { LookGivesAs self.now (ReadsLink path.now) (λ bytes. ToldText bytes.items) result }
    {
        ficus_deciding::readlink(alloc, &self.saved, path)
    }

    /// The names in each directory that is reached from the root, by directory, then as `list` has them.
    pub fn tree(&self, alloc: Global) -> Result<Vec<Line>, Memory>
        requires { FitsImage self.now.saved }
        ensures { IfOk result (λ lines. LookGives self.now TellsTree (Ok (ToldTree lines.items))) }
    {
        ficus_deciding::tree(alloc, &self.saved)
    }

    /// What is in conflict: each name under which a directory has several objects, by directory and name; and each file
    /// in conflict that has a live name or is an orphan, by identifier.
    pub fn conflicts(&self, alloc: Global) -> Result<Clashes, Memory>
        requires { FitsImage self.now.saved }
        ensures { IfOk result (λ clashes. LookGives self.now TellsConflicts (Ok (ToldConflicts clashes))) }
    {
        ficus_deciding::conflicts(alloc, &self.saved)
    }

    /// The orphans, by identifier: the objects without a live name that are directories with something in them or files
    /// with a version that no removal covers.
    pub fn orphans(&self, alloc: Global) -> Result<Vec<Orphan>, Memory>
        requires { FitsImage self.now.saved }
        ensures { IfOk result (λ orphans. LookGives self.now TellsOrphans (Ok (ToldOrphans orphans.items))) }
    {
        ficus_deciding::orphans(alloc, &self.saved)
    }

    /// The directories with a live name that are reached neither from the root nor from an orphan, rising.
    pub fn detached(&self, alloc: Global) -> Result<Vec<Id>, Memory>
        requires { FitsImage self.now.saved }
        ensures { IfOk result (λ dirs. LookGives self.now TellsDetached (Ok (ToldDetached dirs.items))) }
    {
        ficus_deciding::detached(alloc, &self.saved)
    }

    /// The removed entries that it holds, by identifier, each with the members that are known to know of the removal
    /// and those that are known to know that all know of it.
    pub fn marks(&self, alloc: Global) -> Result<Vec<Entry>, Memory>
        requires { FitsImage self.now.saved }
        ensures { IfOk result (λ marks. LookGives self.now TellsMarks (Ok (ToldMarks marks.items))) }
    {
        ficus_deciding::marks(alloc, &self.saved)
    }

    /// Whether both replicas show the same: the same names in every directory, the same orphans, and the same kind and
    /// the same versions of each object that has a live name or is an orphan. What they hold of removed entries may
    /// differ. It looks at all that both hold, once.
    pub fn alike(&self, alloc: Global, other: &Replica) -> Result<bool, Memory>
        requires fits { FitsImage self.now.saved }
        requires fits_too { FitsImage other.now.saved }
        ensures { IfOk result (λ alike. IsTrue alike
            ↔ AreAlike (tables_view self.now.saved) (tables_view other.now.saved)) }
    {
        ficus_deciding::alike(alloc, &self.saved, &other.saved)
    }

    /// What it holds: its entries, live and removed, and its files. This is what it serves to a peer that asks.
    pub fn tables(&self) -> (&Entries, &Files)
        ensures entries { result.0.now ≡ self.now.saved.entries }
        ensures files { result.1.now ≡ self.now.saved.files }
    {
        (&self.saved.entries, &self.saved.files)
    }
}
