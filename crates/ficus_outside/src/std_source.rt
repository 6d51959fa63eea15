ghost use Rattle.std.specs.Prelude.{◌≡◌};
ghost use Rattle.ficus_outside.specs.Calls.{TakesFrom};
ghost use Rattle.ficus_outside.specs.Stream.{StreamState};

use crate::Source;
use crate::reader_source::ReaderSource;
use ficus_faults::Failed;
use std::io::Input;
use std::marker::Model;

/// The standard input of a runtime. It tells nothing of what is left.
#[derive(Drop)]
pub struct StdSource<R: Input + Clone + Drop> {
    // One reader for the life of the source, so that what it has read ahead isn't lost between two calls.
    source: ReaderSource<R::Reader>,
    // Kept as long as its reader.
    rt: R,
}

// Contracts see the count of faults, and the bytes that are known of the reader.
impl<R: Input + Clone + Drop> Model for StdSource<R> {
    ghost Value = { StreamState };

    ghost view = { λ s. s.source };
}

impl<R: Input + Clone + Drop> StdSource<R> {
    /// The standard input of `rt`, with no fault counted.
    pub fn new(rt: R) -> StdSource<R>
        ensures { result.faults ≡ 0 }
    {
        StdSource {
            source: ReaderSource::new(rt.reader()),
            rt,
        }
    }
}

impl<R: Input + Clone + Drop> Source for StdSource<R> {
    ghost faults = { λ s. s.faults };

    fn take(&mut self, into: &mut [u8]) -> Result<usize, Failed>
        ensures { TakesFrom self.old self.new result into.new }
    {
        self.source.take(into)
    }
}
