ghost use Rattle.ficus_version_laws.specs.Laws.{VectorsTellPasts, OwnCountTellsPast, OneVector, VectorsFit, VectorsStay};

/// Of two versions of a file in a lawful history the vectors are equal exactly where the versions are one event,
/// the first is under the second exactly where it lies in its past, and they are apart exactly where neither
/// had heard of the other. One count alone, that of the first version's own replica, tells whether the second
/// has the first in its past.
pub fn vectors_tell_pasts()
    ensures all { VectorsTellPasts }
    ensures own { OwnCountTellsPast }
{}

/// A version has one vector, which counts no more than each replica's updates and doesn't change when the
/// history grows.
pub fn vectors_stay()
    ensures one { OneVector }
    ensures within { VectorsFit }
    ensures same { VectorsStay }
{}
