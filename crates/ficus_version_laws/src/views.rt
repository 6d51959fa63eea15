ghost use Rattle.ficus_version_laws.specs.Laws.{OthersKeepView, OthersKeepFile, ViewsStay};

/// What a replica is shown stays the same after an event of another replica, and after an event of its own
/// that is no update and takes nothing.
pub fn others_keep_views()
    ensures view { OthersKeepView }
    ensures file { OthersKeepFile }
{}

/// What is known shows the same in every longer history.
pub fn views_stay()
    ensures { ViewsStay }
{}
