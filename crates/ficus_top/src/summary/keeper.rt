use ficus_journal::Journal;

/// The program's keeper: it keeps what each replica saves on its pair of disks.
pub type Keeper = Journal;
