/// The versions of images.
#[derive(Clone, Copy, PartialEq, Eq)]
pub enum ImageVersion {
    /// The first: it has no symbolic link. Images of it are read, and no longer written.
    First,
    /// The second, which is written.
    Second,
}
