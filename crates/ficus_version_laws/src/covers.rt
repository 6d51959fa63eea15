ghost use Rattle.ficus_version_laws.specs.Laws.{CoversTellPasts, OneCover, CoversFit, RemovalCoversShown, RemovalCoversAll, OthersKeepCover};

/// A version lies below the cover of its file exactly where a known Remove or Discard of the file had heard of
/// it. It doesn't matter whether the version itself is known. A file has one cover, which
/// counts no more than each replica's updates.
pub fn covers_tell_pasts()
    ensures past { CoversTellPasts }
    ensures one { OneCover }
    ensures within { CoversFit }
{}

/// A Remove and a Discard cover what is known of the file. Any other operation, a Move too, covers nothing.
pub fn covers_follow_updates()
    ensures removed { RemovalCoversShown }
    ensures all { RemovalCoversAll }
    ensures kept { OthersKeepCover }
{}
