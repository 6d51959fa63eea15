ghost use Rattle.std.specs.Prelude.{◌≡◌, ◌≢◌, ◌-◌, ℕ, All, IfOk, IfSome, Some, length, slice_get};
ghost use Rattle.ficus_here_or_away.specs.Pairs.{IsAwayPair, here};
ghost use Rattle.ficus_ids.specs.Members.{IsMember};

use crate::{HereOrAway, StandIn};
use ficus_disk::{Disk, Pair};
use ficus_ids::Memory;
use std::alloc::Global;

/// A pair for each member that a volume may have, for the one of this number, from 1 to 8: its own pair is real, and
/// empty disks in memory stand in for those of the others.
pub fn pairs_for<D: Disk + Drop>(
    alloc: Global,
    own: Pair<D>,
    me: u8,
) -> Result<Vec<Pair<HereOrAway<D>>>, Memory>
    requires { IsMember 8 me }
    ensures count { IfOk result (λ pairs. length pairs.items ≡ 8) }
    ensures own { IfOk result (λ pairs. slice_get pairs.items (me - 1) ≡ Some (here own)) }
    ensures others { IfOk result (λ pairs. (member : ℕ) → IsMember 8 member → member ≢ me
        → IfSome (slice_get pairs.items (member - 1)) IsAwayPair) }
{
    let mut pairs = away_pairs(alloc)?;
    pairs[usize::from(me - 1)] = real(own);
    Ok(pairs)
}

// The same pair, as one that is here.
fn real<D: Disk + Drop>(own: Pair<D>) -> Pair<HereOrAway<D>>
    ensures { result ≡ here own }
{
    Pair {
        a: HereOrAway::Here(own.a),
        b: HereOrAway::Here(own.b),
    }
}

// Eight pairs of empty disks in memory.
fn away_pairs<D: Disk + Drop>(alloc: Global) -> Result<Vec<Pair<HereOrAway<D>>>, Memory>
    ensures count { IfOk result (λ pairs. length pairs.items ≡ 8) }
    ensures away { IfOk result (λ pairs. All IsAwayPair pairs.items) }
{
    let mut pairs = Vec::new(alloc);
    for _ in 0..8u8 {
        pairs.push(away_pair(alloc))?;
    }
    Ok(pairs)
}

// A pair of empty disks in memory. Takes no memory.
fn away_pair<D: Disk + Drop>(alloc: Global) -> Pair<HereOrAway<D>>
    ensures { IsAwayPair result }
{
    Pair {
        a: HereOrAway::Away(StandIn::new(alloc)),
        b: HereOrAway::Away(StandIn::new(alloc)),
    }
}
