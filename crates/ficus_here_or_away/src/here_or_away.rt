ghost use Rattle.ficus_here_or_away.specs.HereOrAway.{either};
ghost use Rattle.ficus_here_or_away.specs.StandIn.{MayBeLeft, MightBeLeft, armings_of, faults_of, fuse_of, image_of, moment_of, room_of, seen_of};

use crate::StandIn;
use ficus_disk::Disk;
use ficus_faults::Failed;
use ficus_ids::Memory;

/// A disk that is the real one, or, for a member that is elsewhere, one in memory that stands in for it.
///
/// It tells what it holds where the real one does, and how its fuse stands where the real one tells both. What a crash
/// might have left at a moment that has passed it doesn't tell, since a disk in memory doesn't remember it.
#[derive(Drop)]
pub enum HereOrAway<D: Disk + Drop> {
    Here(D),
    Away(StandIn),
}

impl<D: Disk + Drop> Disk for HereOrAway<D> {
    ghost use Rattle.ficus_here_or_away.specs.HereOrAway.{of_either};
    ghost use Rattle.ficus_here_or_away.specs.StandIn.{pick_may_be_left, seen_may_be_left as stand_in_seen};

    ghost tells = { D.tells };

    ghost tells_fuse = { D.tells × D.tells_fuse };

    ghost seen = { either D.seen seen_of };

    ghost may_leave = { either D.may_leave MayBeLeft };

    ghost moment = { either D.moment moment_of };

    ghost left_since = { either D.left_since MightBeLeft };

    ghost room = { either D.room room_of };

    ghost faults = { either D.faults faults_of };

    ghost armings = { either D.armings armings_of };

    ghost fuse = { either D.fuse fuse_of };

    ghost image = { either D.image image_of };

    ghost seen_may_be_left = { λ told. of_either
        (λ d. either D.may_leave MayBeLeft d (either D.seen seen_of d))
        (λ disk. D.seen_may_be_left told disk) (λ stand_in. stand_in_seen stand_in) };

    ghost image_may_be_left = { λ told d pick. of_either
        (λ d. either D.may_leave MayBeLeft d (either D.image image_of d pick))
        (λ disk. D.image_may_be_left told.1 disk pick) (λ stand_in. pick_may_be_left stand_in pick) d };

    ghost left_now = { λ none d t c le left. absurd none };

    ghost only_now = { λ d c. of_either
        (λ d. either D.left_since MightBeLeft d (either D.moment moment_of d) c → either D.may_leave MayBeLeft d c)
        (λ disk. D.only_now disk c) (λ stand_in none. absurd none) d };

    ghost left_earlier = { λ d t u c le. of_either
        (λ d. either D.left_since MightBeLeft d u c → either D.left_since MightBeLeft d t c)
        (λ disk. D.left_earlier disk t u c le) (λ stand_in none. absurd none) d };

    fn size(&mut self) -> Result<u64, Failed> {
        match self {
            HereOrAway::Here(disk) => disk.size(),
            HereOrAway::Away(stand_in) => stand_in.size(),
        }
    }

    fn read(&mut self, at: u64, into: &mut [u8]) -> Result<(), Failed> {
        match self {
            HereOrAway::Here(disk) => disk.read(at, into),
            HereOrAway::Away(stand_in) => stand_in.read(at, into),
        }
    }

    fn reserve(&mut self, upto: u64) -> Result<(), Memory> {
        match self {
            HereOrAway::Here(disk) => disk.reserve(upto),
            HereOrAway::Away(stand_in) => stand_in.reserve(upto),
        }
    }

    fn write(&mut self, at: u64, bytes: &[u8]) -> Result<(), Failed> {
        match self {
            HereOrAway::Here(disk) => disk.write(at, bytes),
            HereOrAway::Away(stand_in) => stand_in.write(at, bytes),
        }
    }

    fn sync(&mut self) -> Result<(), Failed> {
        match self {
            HereOrAway::Here(disk) => disk.sync(),
            HereOrAway::Away(stand_in) => stand_in.sync(),
        }
    }

    fn fused(&self) -> bool {
        match self {
            HereOrAway::Here(disk) => disk.fused(),
            HereOrAway::Away(_) => true,
        }
    }

    fn arm(&mut self, calls: u32, pick: u8) {
        match self {
            HereOrAway::Here(disk) => disk.arm(calls, pick),
            HereOrAway::Away(stand_in) => stand_in.arm(calls, pick),
        }
    }

    fn again(&mut self) -> Result<(), Failed> {
        match self {
            HereOrAway::Here(disk) => disk.again(),
            HereOrAway::Away(stand_in) => stand_in.again(),
        }
    }
}
