use ficus_disk::{Disk, Pair};

/// What lies beside a member's own disks: the two on which its open ask is noted, and the file of its volume's tag.
#[derive(Drop)]
pub struct Beside<N: Disk + Drop> {
    pub slots: Pair<N>,
    pub volume: N,
}
