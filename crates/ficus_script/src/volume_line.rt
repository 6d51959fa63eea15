use crate::Command;

/// What a line of a script over several volumes asks for, of the volume with this number, from 1. Its paths begin
/// there, and may lead through other volumes. Its command is one step of a world: no sweep, and no why.
#[derive(Drop)]
pub struct VolumeLine {
    pub volume: u8,
    pub command: Command,
}
