ghost use Rattle.std.specs.Prelude.{◌≡◌};
ghost use Rattle.ficus_image.specs.ImageFault.{told};

use ficus_formats::ReadFault;

/// Why bytes gave nothing that a replica saves.
#[derive(Clone, Copy, PartialEq, Eq)]
pub enum ImageFault {
    /// They spell no image.
    NotImage,
    /// Memory was refused.
    Memory,
}

impl From<ReadFault> for ImageFault {
    ghost from_gives = { λ read fault. fault ≡ told read };

    fn from(fault: ReadFault) -> ImageFault {
        match fault {
            ReadFault::Unspelled => ImageFault::NotImage,
            ReadFault::Memory => ImageFault::Memory,
        }
    }
}
