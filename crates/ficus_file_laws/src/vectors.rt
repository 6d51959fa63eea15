ghost use Rattle.ficus_file_laws.specs.Laws.{VectorsCompareAsPasts};

/// In a lawful history two vectors of versions of one file compare as the pasts of these versions: `Equal` exactly
/// where it is one event, `Under` exactly where the first lies in the past of the second, `Over` exactly where the
/// second lies in the past of the first, and else `Apart`. Source: Parker and others 1983.
pub fn vectors_compare_as_pasts()
    ensures { VectorsCompareAsPasts }
{}
