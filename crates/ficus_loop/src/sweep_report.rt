/// What a sweep did.
#[derive(Clone, Copy)]
pub struct SweepReport {
    /// How many pulls there were: 42 at most.
    pub pulls: u32,
    /// How many removed entries the collections gave up, in all.
    pub entries: u32,
    /// How many files and directories they gave up, in all.
    pub files: u32,
}
