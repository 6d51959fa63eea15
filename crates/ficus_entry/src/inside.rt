ghost use Rattle.std.specs.Prelude.{◌≡◌, ◌↔◌, ◌≤◌, length, Contains, IsTrue, IfOk, IfSome, IfNone};
ghost use Rattle.ficus_ids.specs.Rising.{IsRisingBy};
ghost use Rattle.ficus_ids.specs.declared.id.Id.{Id as IdValue};
ghost use Rattle.ficus_entry.specs.declared.entry.Entry.{Entry as EntryValue};
ghost use Rattle.ficus_entry.specs.declared.entry.State.TheVariants.{Live};
ghost use Rattle.ficus_entry.specs.Inside.{IsNamedIn, Leads, HasLiveInside, HasOtherName, HoldsSuch, IsNameOf, IsOtherName, LiesInside, LiesBetween};
ghost use Rattle.ficus_index.specs.Place.{IsNotedWithin};

use crate::scan::{Asked, note_asked};
use crate::{Entries, Entry, InOrder};
use ficus_ids::{Id, Memory, Name};
use ficus_index::{DIGEST_END, Index, Place, Span, digest};

/// To which objects an entry may lead.
#[derive(Clone, Copy)]
pub enum Leading {
    /// To any.
    Anywhere,
    /// To this one.
    To(Id),
    /// To any but this one.
    Besides(Id),
}

// A test that only live entries pass.
trait Test {
    ghost use Rattle.std.specs.Prelude.{◌≡◌};
    ghost use Rattle.ficus_entry.specs.declared.entry.Entry.{Entry as EntryValue};
    ghost use Rattle.ficus_entry.specs.declared.entry.State.TheVariants.{Live};

    ghost Passes: { Self → EntryValue → Type 0 };

    ghost lives: { (test : Self) (entry : EntryValue) → Passes test entry → entry.state ≡ Live };

    fn passes(&self, entry: &Entry) -> bool
        ensures { IsTrue result ↔ Passes self.now entry.now };
}

#[derive(Clone, Copy)]
struct Named<'a> {
    dir: Id,
    name: &'a Name,
    leading: Leading,
}

impl<'a> Test for Named<'a> {
    ghost Passes = { λ test entry. IsNamedIn entry test.dir test.name.now × Leads test.leading entry.target };

    ghost lives = { λ test entry passes. passes.0.live };

    fn passes(&self, entry: &Entry) -> bool {
        is_named_in(entry, self.dir, self.name) && leads(self.leading, entry.target)
    }
}

#[derive(Clone, Copy)]
struct LiveIn {
    dir: Id,
}

impl Test for LiveIn {
    ghost use Rattle.ficus_entry.specs.declared.entry.State.TheVariants.{Live};

    ghost Passes = { λ test entry. (entry.state ≡ Live) × (entry.dir ≡ test.dir) };

    ghost lives = { λ test entry passes. passes.0 };

    fn passes(&self, entry: &Entry) -> bool {
        entry.is_live() && entry.dir == self.dir
    }
}

impl Entries {
    /// A live entry of the directory with the name that leads where it is asked to, or `None` exactly where there is
    /// none. Takes no memory, and time for the live entries of this name there alone.
    pub fn named(&self, dir: Id, name: &Name, leading: Leading) -> Option<&Entry>
        ensures some { IfSome result (λ entry. Contains self.now entry.now
            × IsNamedIn entry.now dir name.now × Leads leading entry.now.target) }
        ensures none { IfNone result ((entry : EntryValue) → Contains self.now entry
            → IsNamedIn entry dir name.now → Leads leading entry.target → ⊥) }
    {
        let rank = digest(name);
        let to = Place {
            dir,
            rank: rank + 1,
        };
        self.first(Place { dir, rank }, to, &Named { dir, name, leading })
    }

    /// The identifiers of the live entries of the directory that have the name and lead to the object, in order. It
    /// takes time for the entries of this name there alone.
    pub fn names_of(&self, dir: Id, name: &Name, target: Id) -> Result<Vec<Id>, Memory>
        ensures entries { IfOk result (λ ids. (id : IdValue) →
            Contains ids.items id ↔ HoldsSuch (IsNameOf dir name.now target) self.now id) }
        ensures rising { IfOk result (λ ids. IsRisingBy (λ (id : IdValue). id) ids.items) }
    {
        Ok(once_each(self.noted_names_of(dir, name, target)?))
    }

    /// Whether a live entry leads to the object from another directory or under another name. It looks at each entry
    /// once.
    pub fn has_other_name(&self, dir: Id, name: &Name, target: Id) -> Result<bool, Memory>
        ensures { IfOk result (λ has. IsTrue has ↔ HasOtherName self.now dir name.now target) }
    {
        let in_order = self.in_order()?;
        Ok(any_other_name(&in_order, dir, name, target))
    }

    // The same as `names_of`, in the order of the index, perhaps some twice.
    fn noted_names_of(&self, dir: Id, name: &Name, target: Id) -> Result<Vec<Id>, Memory>
        ensures { IfOk result (λ ids. (id : IdValue) →
            Contains ids.items id ↔ HoldsSuch (IsNameOf dir name.now target) self.now id) }
    {
        let rank = digest(name);
        let from = Place { dir, rank };
        let to = Place {
            dir,
            rank: rank + 1,
        };
        let leading = Leading::To(target);
        all_of(
            self,
            &self.index,
            self.index.span(from, to),
            &Named { dir, name, leading },
        )
    }

    /// Whether a live entry lies in the directory.
    pub fn live_inside(&self, dir: Id) -> bool
        ensures { IsTrue result ↔ HasLiveInside self.now dir }
    {
        self.first(first_place(dir), place_behind(dir), &LiveIn { dir })
            .is_some()
    }

    /// The identifiers of the entries that lie in the directory, live and removed ones, in order. It looks at each
    /// entry once.
    pub fn inside(&self, dir: Id) -> Result<Vec<Id>, Memory>
        ensures entries { IfOk result (λ ids. (id : IdValue) → Contains ids.items id ↔ LiesInside self.now dir id) }
        ensures rising { IfOk result (λ ids. IsRisingBy (λ (id : IdValue). id) ids.items) }
    {
        let in_order = self.in_order()?;
        let mut ids = Vec::new(self.allocator());
        note_asked(&mut ids, &in_order, Asked::InDirectory(dir))?;
        Ok(ids)
    }

    /// The identifiers of the entries of the directory that the index notes as live: of each that is, and perhaps of
    /// some that were removed since. It takes time for these alone, however many are removed.
    pub fn noted_live_inside(&self, dir: Id) -> Result<Vec<Id>, Memory>
        ensures inside { IfOk result (λ ids. (id : IdValue) → Contains ids.items id → LiesInside self.now dir id) }
        ensures live { IfOk result (λ ids. (entry : EntryValue) → Contains self.now entry
            → entry.state ≡ Live → entry.dir ≡ dir → Contains ids.items entry.id) }
    {
        let span = self.index.span(first_place(dir), place_behind(dir));
        noted_of(self, &self.index, span, dir)
    }

    // Whether the entry with the identifier lies in the directory.
    fn lies_inside(&self, id: Id, dir: Id) -> bool
        ensures { IsTrue result ↔ LiesInside self.now dir id }
    {
        match self.get(id) {
            Some(entry) => is_in(entry, dir),
            None => false,
        }
    }

    // The first entry in the index from one place up to another that passes the test.
    fn first<T: Test>(&self, from: Place, to: Place, test: &T) -> Option<&Entry>
        ensures some { IfSome result (λ entry. Contains self.now entry.now × T.Passes test.now entry.now) }
        ensures none { IfNone result ((entry : EntryValue) → Contains self.now entry
            → T.Passes test.now entry → LiesBetween from to entry → ⊥) }
    {
        first_of(self, &self.index, self.index.span(from, to), test)
    }

    // Whether an entry has the identifier and passes the test.
    fn holds_passing<T: Test>(&self, id: Id, test: &T) -> bool
        ensures { IsTrue result ↔ HoldsSuch (T.Passes test.now) self.now id }
    {
        match self.get(id) {
            Some(entry) => test.passes(entry),
            None => false,
        }
    }

    // The entry with the identifier, if it passes the test.
    fn passing<T: Test>(&self, id: Id, test: &T) -> Option<&Entry>
        ensures some { IfSome result (λ entry. Contains self.now entry.now × T.Passes test.now entry.now) }
        ensures none { IfNone result ((entry : EntryValue) → Contains self.now entry
            → T.Passes test.now entry → entry.id ≡ id → ⊥) }
    {
        match self.get(id) {
            Some(entry) if test.passes(entry) => Some(entry),
            _ => None,
        }
    }
}

// The lowest place that an entry of the directory may have.
fn first_place(dir: Id) -> Place
    ensures { result ≡ record { dir = dir; rank = 0 } }
{
    Place { dir, rank: 0 }
}

// The place behind all that entries of the directory may have.
fn place_behind(dir: Id) -> Place
    ensures { result ≡ record { dir = dir; rank = DIGEST_END } }
{
    Place {
        dir,
        rank: DIGEST_END,
    }
}

// The first entry that passes the test among those that a span notes.
fn first_of<'a, T: Test>(
    entries: &'a Entries,
    index: &Index,
    span: Span,
    test: &T,
) -> Option<&'a Entry>
    requires { span.end ≤ length index.now }
    ensures some { IfSome result (λ entry. Contains entries.now entry.now × T.Passes test.now entry.now) }
    ensures none { IfNone result ((entry : EntryValue) → Contains entries.now entry
        → T.Passes test.now entry → IsNotedWithin index.now span.start span.end entry.id → ⊥) }
{
    for position in span.start..span.end {
        if let Some(entry) = entries.passing(index.id_at(position), test) {
            return Some(entry);
        }
    }
    None
}

// The same identifiers in order, each of them once.
fn once_each(mut ids: Vec<Id>) -> Vec<Id>
    ensures same { (id : IdValue) → Contains result.items id ↔ Contains ids.items id }
    ensures rising { IsRisingBy (λ (id : IdValue). id) result.items }
{
    ids.sort_unstable();
    ids.dedup();
    ids
}

// The identifiers that a span notes whose entries pass the test.
fn all_of<T: Test>(
    entries: &Entries,
    index: &Index,
    span: Span,
    test: &T,
) -> Result<Vec<Id>, Memory>
    requires { span.end ≤ length index.now }
    ensures sound { IfOk result (λ ids. (id : IdValue) → Contains ids.items id
        → HoldsSuch (T.Passes test.now) entries.now id) }
    ensures complete { IfOk result (λ ids. (id : IdValue) → HoldsSuch (T.Passes test.now) entries.now id
        → IsNotedWithin index.now span.start span.end id → Contains ids.items id) }
{
    let mut ids = Vec::new(entries.allocator());
    for position in span.start..span.end {
        let id = index.id_at(position);
        if entries.holds_passing(id, test) {
            ids.push(id)?;
        }
    }
    Ok(ids)
}

// Whether one of the entries is live and leads to the object from another directory or under another name.
fn any_other_name(entries: &InOrder<'_>, dir: Id, name: &Name, target: Id) -> bool
    ensures { IsTrue result ↔ HasOtherName entries.now dir name.now target }
{
    for index in 0..entries.len() {
        if is_other_name(entries.at(index), dir, name, target) {
            return true;
        }
    }
    false
}

fn is_other_name(entry: &Entry, dir: Id, name: &Name, target: Id) -> bool
    ensures { IsTrue result ↔ IsOtherName dir name.now target entry.now }
{
    entry.is_live() && entry.target == target && !(entry.dir == dir && entry.name == *name)
}

// The identifiers that a span notes whose entries lie in the directory.
fn noted_of(entries: &Entries, index: &Index, span: Span, dir: Id) -> Result<Vec<Id>, Memory>
    requires { span.end ≤ length index.now }
    ensures sound { IfOk result (λ ids. (id : IdValue) → Contains ids.items id → LiesInside entries.now dir id) }
    ensures complete { IfOk result (λ ids. (id : IdValue) → LiesInside entries.now dir id
        → IsNotedWithin index.now span.start span.end id → Contains ids.items id) }
{
    let mut ids = Vec::new(entries.allocator());
    for position in span.start..span.end {
        let id = index.id_at(position);
        if entries.lies_inside(id, dir) {
            ids.push(id)?;
        }
    }
    Ok(ids)
}

fn is_in(entry: &Entry, dir: Id) -> bool
    ensures { IsTrue result ↔ (entry.now.dir ≡ dir) }
{
    entry.dir == dir
}

fn is_named_in(entry: &Entry, dir: Id, name: &Name) -> bool
    ensures { IsTrue result ↔ IsNamedIn entry.now dir name.now }
{
    entry.is_live() && entry.dir == dir && entry.name == *name
}

fn leads(leading: Leading, target: Id) -> bool
    ensures { IsTrue result ↔ Leads leading target }
{
    match leading {
        Leading::Anywhere => true,
        Leading::To(wanted) => target == wanted,
        Leading::Besides(other) => target != other,
    }
}
