ghost use Rattle.ficus_file_laws.specs.Laws.{MergesAgree, AcceptMergesLists, ListsAgree, FewAreMerged};

/// Where an answer is taken, what the versions of a file make together are those that are then shown. Two of them with
/// one vector have the same bytes, and there are at most as many as members.
pub fn accept_merges_lists()
    ensures terms { MergesAgree }
    ensures merged { AcceptMergesLists }
    ensures agree { ListsAgree }
    ensures few { FewAreMerged }
{}
