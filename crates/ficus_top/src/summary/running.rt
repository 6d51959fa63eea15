ghost use Rattle.std.specs.Prelude.{◌≡◌, ℕ, ◌≤◌, All, IfOk, length};
ghost use Rattle.ficus_generator.specs.Lines.{StopsNothing};
ghost use Rattle.ficus_ids.specs.Members.{IsCount, IsMember};
ghost use Rattle.ficus_runs.specs.Fuses.{FuseState};
ghost use Rattle.ficus_runs.specs.Start.{default_volume};
ghost use Rattle.ficus_script.specs.Command.{IsCommand};
ghost use Rattle.ficus_loop.specs.Serving.{script_limit};
ghost use Rattle.ficus_top.specs.Summary.Keeper.{keeper};
ghost use Rattle.ficus_top.specs.Summary.Running.{CountedAs, HoldingsIn};
ghost use Rattle.ficus_top.specs.Summary.Summary.{fresh_start};
ghost use Rattle.ficus_world.specs.Disks.{IsBacked};
ghost use Rattle.ficus_world.specs.Fuses.{FusesStand, at_rest};
ghost use Rattle.ficus_world.specs.World.{IsUpIn, WorldStandsFor};

use crate::summary::counts::Counts;
use crate::summary::keeper::Keeper;
use ficus_disk::{Disk, Pair};
use ficus_ids::{Members, Memory};
use ficus_loop::count_all;
use ficus_opening::check::{Holding, holding_of};
use ficus_outside::MemLink;
use ficus_script::Command;
use ficus_world::World;
use std::alloc::Global;

/// Carries out the commands on a fresh world, and counts what they come to. No disk fails, so that all is done and all
/// members are up at the end.
pub(crate) fn run<D: Disk>(
    alloc: Global,
    members: Members,
    world: &mut World<Keeper, MemLink>,
    disks: &mut Vec<Pair<D>>,
    commands: &[Command],
) -> Result<Counts, Memory>
    requires members { IsCount members }
    requires tells { D.tells }
    requires tells_fuse { D.tells_fuse }
    requires commands { All IsCommand commands.now }
    requires stopless { All StopsNothing commands.now }
    requires count { length commands.now ≤ script_limit }
    requires pairs { length disks.old.items ≡ 8 }
    requires stands { WorldStandsFor (default_volume members) (fresh_start members) world.old.whole }
    requires unfailed { world.old.whole.post.faults ≡ 0 }
    requires backed { IsBacked keeper D.Disk world.old disks.old.items }
    requires fuses { (F : ℕ → FuseState) → ((r : ℕ) → F r ≡ at_rest 0)
        → FusesStand keeper D.Disk F world.old.whole.members disks.old.items }
    ensures counted { IfOk result (λ counts. CountedAs members commands.now counts world.new.whole) }
{
    let before = world.history().len();
    let tally = count_all(alloc, world, disks, commands)?;
    // Reading the link tells that it counts no fault.
    let _ = world.link();
    Ok(Counts {
        lines: commands.len(),
        ok: tally.ok,
        no: tally.no,
        events: world.history().len() - before,
    })
}

/// How much each member holds, all of which are up.
pub(crate) fn holdings_of(
    alloc: Global,
    members: Members,
    world: &World<Keeper, MemLink>,
) -> Result<Vec<Holding>, Memory>
    requires up { (r : ℕ) → IsMember members r → IsUpIn world.now.whole r }
    ensures { IfOk result (λ holdings. HoldingsIn world.now.whole members holdings.items) }
{
    let mut holdings = Vec::new(alloc);
    for member in 1..=members.count() {
        let Some(replica) = world.replica(member) else {
            unreachable!()
        };
        let (entries, files) = replica.tables();
        holdings.push(holding_of(entries, files))?;
    }
    Ok(holdings)
}
