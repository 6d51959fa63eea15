use ficus_model::Event;
use ficus_replica::Replica;
use ficus_wire::Parts;

/// A replica after an event of its own that isn't saved yet, or whose save failed.
#[derive(Drop)]
pub struct Pending {
    pub replica: Replica,
    pub event: Event,
}

/// Whether a member takes commands.
#[derive(Drop)]
pub enum MemberState {
    /// It takes commands.
    Up,
    /// Its disks have failed, in a save of what is pending or when they were opened. A restart brings it back.
    Down(Option<Pending>),
}

/// A member of a volume: the replica that it holds, the pieces that it has of the answer to its open ask, its state,
/// and whether both of its disks have a fuse.
#[derive(Drop)]
pub struct Member {
    pub replica: Replica,
    pub parts: Option<Parts>,
    pub state: MemberState,
    pub fused: bool,
}
