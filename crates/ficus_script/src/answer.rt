use ficus_commands::Told;
use ficus_ids::{Id, Listed, Refusal};

/// What a command came to.
#[derive(Drop)]
pub enum Answer {
    /// It was done.
    Done,
    /// It was done, and an object got a name by the update of this number, which is the number of the entry, and that
    /// of the object where it was made.
    Made(Id),
    /// It was done, and a message of this number was posted.
    Mail(u32),
    /// It was done, and messages were posted, of which these are the numbers of the first and the last.
    Mails(u32, u32),
    /// A piece of an answer was taken, now or before; so many of its pieces are taken, of so many that there are.
    Part {
        have: u32,
        of: u32,
    },
    /// It was done, and gave up so many removed entries and so many files and directories.
    Collected {
        entries: u32,
        files: u32,
    },
    /// What the look told.
    Told(Told),
    /// Whether two replicas show the same.
    Alike(bool),
    /// It was done: so many pulls, and collections that gave up so many removed entries and so many files and
    /// directories in all.
    Swept {
        pulls: u32,
        entries: u32,
        files: u32,
    },
    /// Of each file in conflict with a certificate, its line, which ends with byte 10.
    Why(Listed<Listed<u8>>),
    /// It was refused.
    Refused(Refusal),
}
