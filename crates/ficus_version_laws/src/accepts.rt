ghost use Rattle.ficus_version_laws.specs.Laws.{AcceptShowsLatest, AcceptMergesVersions, AcceptKeepsList, AcceptTakesList, AcceptJoinsCovers, AcceptKeepsCover, AcceptTakesCover};

/// After an Accept its replica is shown the latest of the versions that it and the server were shown. Their
/// list follows from the two lists by the vectors. Where one side knew all that the other knew of the file's
/// versions, it is this side's list.
pub fn accept_joins_versions()
    ensures shown { AcceptShowsLatest }
    ensures merged { AcceptMergesVersions }
    ensures kept { AcceptKeepsList }
    ensures taken { AcceptTakesList }
{}

/// After an Accept the covers of both sides are joined. Where one side knew all that the other knew of the
/// file's Removes and Discards, it is this side's cover.
pub fn accept_joins_covers()
    ensures joined { AcceptJoinsCovers }
    ensures kept { AcceptKeepsCover }
    ensures taken { AcceptTakesCover }
{}
