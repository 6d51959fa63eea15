use ficus_entry::Entries;
use ficus_file::Files;
use ficus_ids::Members;

/// The most updates that a volume allows one replica over its life.
pub const UPDATE_LIMIT: u32 = 100_000;

/// The most bytes that a volume allows one replica to write over its life: 4 MiB.
pub const BYTE_LIMIT: u32 = 4_194_304;

/// The most bytes of one file.
pub const FILE_LIMIT: usize = 16_384;

/// What a replica saves: all that outlives a restart.
#[derive(Drop)]
pub struct Saved {
    /// The replica's own number.
    pub me: u8,
    /// How many replicas the volume has.
    pub members: Members,
    /// The most updates that one replica makes over its life, from 1 to `UPDATE_LIMIT`.
    pub ids: u32,
    /// The most bytes that one replica writes over its life, at most `BYTE_LIMIT`.
    pub bytes: u32,
    /// The number of its next update, from 1.
    pub next: u32,
    /// How many bytes it has written.
    pub used: u32,
    /// How often what it saves has changed.
    pub generation: u64,
    /// The entries that it holds.
    pub entries: Entries,
    /// The files and directories that it holds.
    pub files: Files,
}
