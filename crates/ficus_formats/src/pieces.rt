ghost use Rattle.ficus_formats.specs.Pieces.{PiecesJoin, PiecesHaveSizes, PiecesEnd};

/// The law that the pieces of bytes, in order, are joined to them. It does nothing when it runs.
pub fn pieces_join()
    ensures { PiecesJoin }
{}

/// The law that each piece of bytes is full but the last, which has some and ends where they end. It does nothing
/// when it runs.
pub fn pieces_have_sizes()
    ensures sizes { PiecesHaveSizes }
    ensures end { PiecesEnd }
{}
