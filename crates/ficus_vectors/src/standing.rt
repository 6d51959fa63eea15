/// How one vector stands to another.
#[derive(Clone, Copy, PartialEq, Eq)]
pub enum Standing {
    /// Each count is the other's.
    Equal,
    /// The other covers it, and they differ.
    Under,
    /// It covers the other, and they differ.
    Over,
    /// Neither covers the other.
    Apart,
}
