ghost use Rattle.ficus_standing_laws.specs.Laws.{ReplicasExist};

/// For every lawful history of two to eight members a replica of each member's number stands. What others have done is
/// no premise.
pub fn replicas_exist()
    ensures { ReplicasExist }
{}
