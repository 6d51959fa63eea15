ghost use Rattle.std.specs.Prelude.{◌≡◌, ◌+◌, ◌≤◌, [], length, replicate, vec_capacity, OnOk};
ghost use Rattle.ficus_disk.specs.Bytes.{patch};
ghost use Rattle.ficus_disk.specs.Platter.{IsCleanBut, marks_of};
ghost use Rattle.ficus_disk.specs.declared.mark.Mark.TheVariants.{Clean};

use crate::mark::Mark;
use crate::overwrite::{clean_upto, fill_over, mark_over, reserve_upto};
use crate::span::Span;
use ficus_ids::Memory;
use std::alloc::Global;

/// For each byte of a disk in memory whether it was written since the last sync. The latest range that was written is
/// kept as such, and marked only when another is written: mostly a sync comes first, and nothing is to be marked. Clean
/// marks behind all others needn't be spelled out: what is appended and synced mostly gets none.
#[derive(Drop)]
pub(crate) struct Marks {
    // Those that are spelled out: behind them all are clean.
    marks: Vec<Mark>,
    // There are marks of so many bytes, the latest range aside.
    count: usize,
    // What is marked lies within this range.
    dirty: Span,
    // The latest range that was written since the last sync.
    latest: Span,
    ghost clean: { IsCleanBut dirty.from dirty.upto marks.items },
    ghost within: { dirty.upto ≤ length marks.items },
    ghost short: { length marks.items ≤ count },
    ghost near: { latest.from ≤ count },
    ghost room: { latest.upto ≤ vec_capacity marks },
    ghost counted: { count ≤ vec_capacity marks },
}

impl Marks {
    ghost use Rattle.ficus_disk.specs.Marks.{kept_in, marks_in, marks_room};

    /// Of no byte. Takes no memory.
    pub(crate) fn new(alloc: Global) -> Marks
        ensures { marks_in result ≡ [] }
    {
        Marks {
            marks: Vec::new(alloc),
            count: 0,
            dirty: Span::none(),
            latest: Span::none(),
        }
    }

    /// Afterwards so many bytes are marked without memory.
    pub(crate) fn reserve(&mut self, upto: usize) -> Result<(), Memory>
        ensures reserved { OnOk result (upto ≤ marks_room self.new) }
        ensures marks { marks_in self.new ≡ marks_in self.old }
        ensures room { marks_room self.old ≤ marks_room self.new }
    {
        reserve_upto(&mut self.marks, upto)
    }

    /// A range of so many bytes is written.
    pub(crate) fn write(&mut self, at: usize, count: usize)
        requires place { at ≤ length (marks_in self.old) }
        requires room { at + count ≤ marks_room self.old }
        ensures marks { marks_in self.new ≡ patch (marks_in self.old) at (marks_of count) }
        ensures room { marks_room self.old ≤ marks_room self.new }
    {
        self.settle();
        self.latest = Span {
            from: at,
            upto: at + count,
        };
    }

    /// Marks the latest range too, unless it is empty.
    fn settle(&mut self)
        ensures settled { kept_in self.new ≡ marks_in self.old }
        ensures marks { marks_in self.new ≡ marks_in self.old }
        ensures room { marks_room self.old ≤ marks_room self.new }
    {
        let Span { from, upto } = self.latest;
        if from < upto {
            let dirty = self.dirty.with(from, upto);
            clean_upto(&mut self.marks, from);
            mark_over(&mut self.marks, from, upto - from);
            self.count = self.count.max(upto);
            self.dirty = dirty;
            self.latest = Span::none();
        }
    }

    /// Spells out the mark of each byte.
    pub(crate) fn spell(&mut self)
        ensures spelled { self.new.marks.items ≡ marks_in self.old }
        ensures marks { marks_in self.new ≡ marks_in self.old }
        ensures room { marks_room self.old ≤ marks_room self.new }
    {
        self.settle();
        clean_upto(&mut self.marks, self.count);
    }

    /// All so many bytes are synced. It takes time for those alone that are marked.
    pub(crate) fn clear(&mut self, count: usize)
        requires each { length (marks_in self.old) ≡ count }
        requires room { count ≤ marks_room self.old }
        ensures marks { marks_in self.new ≡ replicate count Clean }
        ensures room { marks_room self.old ≤ marks_room self.new }
    {
        let Span { from, upto } = self.dirty;
        fill_over(&mut self.marks, from, upto - from, Mark::Clean);
        self.count = count;
        self.dirty = Span::none();
        self.latest = Span::none();
    }

    /// The marks that are spelled out.
    pub(crate) fn items(&self) -> &[Mark]
        ensures { result.now ≡ self.now.marks.items }
    {
        &self.marks
    }

    /// So many bytes stand in place of all, all synced.
    pub(crate) fn renew(&mut self, count: usize)
        requires { count ≤ marks_room self.old }
        ensures marks { marks_in self.new ≡ replicate count Clean }
        ensures room { marks_room self.old ≤ marks_room self.new }
    {
        self.marks.clear();
        self.count = count;
        self.dirty = Span::none();
        self.latest = Span::none();
    }
}
