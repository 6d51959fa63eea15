ghost use Rattle.std.specs.Prelude.{◌≡◌, count_by};
ghost use Rattle.ficus_entry.specs.Kill.{is_live};
ghost use Rattle.ficus_opening.specs.Check.Holding.{holding_of};

use ficus_entry::Entries;
use ficus_file::Files;

/// How much a replica holds: entries that are live, entries that are removed, and files and directories.
#[derive(Clone, Copy)]
pub struct Holding {
    pub live: usize,
    pub dead: usize,
    pub objects: usize,
}

/// How much these are.
pub fn holding_of(entries: &Entries, files: &Files) -> Holding
    ensures { result ≡ holding_of entries.now files.now }
{
    let live = count_live(entries);
    Holding {
        live,
        dead: entries.len() - live,
        objects: files.len(),
    }
}

// How many entries are live.
fn count_live(entries: &Entries) -> usize
    ensures { result ≡ count_by is_live entries.now }
{
    let mut count = 0;
    for index in 0..entries.len() {
        count += usize::from(entries.at(index).is_live());
    }
    count
}
