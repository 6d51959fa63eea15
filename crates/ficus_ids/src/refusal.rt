ghost use Rattle.std.specs.Prelude.{◌≡◌};
ghost use Rattle.ficus_ids.specs.Refusal.{refusal_number, refusal_word};
ghost use Rattle.ficus_ids.specs.declared.refusal.Refusal.TheVariants.{Memory as OutOfMemory};

use crate::Memory;
use std::alloc::{AllocError, AllocFailed};

/// Why a command is refused. The answer to a refused command is `no` and the refusal's word.
#[derive(Clone, Copy, Debug, PartialEq, Eq)]
pub enum Refusal {
    /// Memory was refused.
    Memory,
    /// No live entry has the name, or the name and the target.
    NoEntry,
    /// A directory is wanted, and the object is a file.
    NotDir,
    /// A file is wanted, and the object is a directory.
    IsDir,
    /// A live entry of the directory has the name already.
    Exists,
    /// Several targets have the name.
    Ambiguous,
    /// The directory has a live entry in it and would lose its last name.
    NotEmpty,
    /// The directory would come to lie in itself.
    IntoSelf,
    /// The file is in conflict.
    Conflict,
    /// The file isn't in conflict.
    NoConflict,
    /// The resolver of the file's kind declines.
    Declined,
    /// The bytes are more than a file may have.
    TooLong,
    /// The object is no orphan.
    NotOrphan,
    /// The replica has made all the updates that it may make.
    Spent,
    /// The replica has written all the bytes that it may write.
    Quota,
    /// The answer isn't to the open ask.
    Stale,
    /// The replica is down.
    Down,
    /// No message has this number.
    NoMail,
    /// The link has no room for the message.
    LinkFull,
    /// The replica's disks failed.
    Store,
    /// A disk has no fuse.
    NoFuse,
    /// The bytes aren't a message that fits.
    BadMessage,
    /// No member has this number, or the two are the same.
    Member,
    /// The link failed.
    Link,
    /// The disks hold no image that fits.
    Image,
    /// Pieces of another state of the server are held.
    Mixed,
    /// The object is a symbolic link, whose text stays.
    IsLink = 26,
    /// A symbolic link is wanted, and the object is another.
    NotLink = 27,
    /// The two paths of the command end in different volumes.
    Crossing = 28,
    /// A piece of the answer isn't there.
    Missing = 29,
}

impl Refusal {
    /// Its number, from 0 to 29.
    pub fn number(self) -> u8
        ensures { result ≡ refusal_number self }
    {
        self as u8
    }

    /// The word for it in answers.
    pub fn word(self) -> &'static str
        ensures { result.now ≡ refusal_word self }
    {
        match self {
            Refusal::Memory => "memory",
            Refusal::NoEntry => "noentry",
            Refusal::NotDir => "notdir",
            Refusal::IsDir => "isdir",
            Refusal::Exists => "exists",
            Refusal::Ambiguous => "ambiguous",
            Refusal::NotEmpty => "notempty",
            Refusal::IntoSelf => "intoself",
            Refusal::Conflict => "conflict",
            Refusal::NoConflict => "noconflict",
            Refusal::Declined => "declined",
            Refusal::TooLong => "toolong",
            Refusal::NotOrphan => "notorphan",
            Refusal::Spent => "spent",
            Refusal::Quota => "quota",
            Refusal::Stale => "stale",
            Refusal::Down => "down",
            Refusal::NoMail => "nomail",
            Refusal::LinkFull => "linkfull",
            Refusal::Store => "store",
            Refusal::NoFuse => "nofuse",
            Refusal::BadMessage => "badmessage",
            Refusal::Member => "member",
            Refusal::Link => "link",
            Refusal::Image => "image",
            Refusal::Mixed => "mixed",
            Refusal::IsLink => "islink",
            Refusal::NotLink => "notlink",
            Refusal::Crossing => "crossing",
            Refusal::Missing => "missing",
        }
    }
}

impl From<Memory> for Refusal {
    ghost from_gives = { λ _ refusal. refusal ≡ OutOfMemory };

    fn from(_: Memory) -> Refusal {
        Refusal::Memory
    }
}

impl From<AllocError> for Refusal {
    ghost from_gives = { λ _ refusal. refusal ≡ OutOfMemory };

    fn from(_: AllocError) -> Refusal {
        Refusal::Memory
    }
}

impl<T: Drop> From<AllocFailed<T>> for Refusal {
    ghost from_gives = { λ _ refusal. refusal ≡ OutOfMemory };

    fn from(_: AllocFailed<T>) -> Refusal {
        Refusal::Memory
    }
}
