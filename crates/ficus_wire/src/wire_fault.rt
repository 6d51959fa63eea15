/// Why bytes gave no message.
#[derive(Clone, Copy, PartialEq, Eq)]
pub enum WireFault {
    /// They spell no message.
    NotMessage,
    /// Memory was refused.
    Memory,
}
