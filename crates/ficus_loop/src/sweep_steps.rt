//! The steps of a sweep, as commands.
ghost use Rattle.std.specs.Prelude.{◌≡◌, ◌+◌, ◌-◌, ◌<◌, ◌≤◌, ◌++◌, map, IfOk, OnOk};
ghost use Rattle.ficus_runs.specs.Sweep.{command_of, leg_step, leg_steps, ring_round, star_round, sweep_steps};
ghost use Rattle.ficus_loop.specs.Legs.{leg_of};

use ficus_ids::Memory;
use ficus_script::{Command, Order};
use std::alloc::Global;

// What each of some members does in turn, in rising order.
#[derive(Clone, Copy)]
pub(crate) enum Leg {
    // Replica 1 pulls from it.
    Gathers,
    // It pulls from replica 1.
    Spreads,
    // It pulls from the one before it.
    HandsOn,
    // It collects.
    Collects,
}

/// All steps of a sweep, in order.
pub(crate) fn steps_of(alloc: Global, order: Order, count: u8) -> Result<Vec<Command>, Memory>
    requires at_least { 2 ≤ count }
    requires at_most { count ≤ 8 }
    ensures { IfOk result (λ steps. steps.items ≡ map command_of (sweep_steps order count)) }
{
    let mut steps = Vec::new(alloc);
    match order {
        Order::Star => push_star(&mut steps, count)?,
        Order::Ring => push_ring(&mut steps, count)?,
    }
    Ok(steps)
}

fn push_star(steps: &mut Vec<Command>, count: u8) -> Result<(), Memory>
    requires at_least { 2 ≤ count }
    requires at_most { count ≤ 8 }
    ensures { OnOk result (steps.new.items ≡ steps.old.items ++ map command_of (sweep_steps Order.Star count)) }
{
    push_star_round(steps, count)?;
    push_star_round(steps, count)?;
    push_star_round(steps, count)?;
    push_leg(steps, Leg::Collects, 1, count)
}

fn push_ring(steps: &mut Vec<Command>, count: u8) -> Result<(), Memory>
    requires at_least { 2 ≤ count }
    requires at_most { count ≤ 8 }
    ensures { OnOk result (steps.new.items ≡ steps.old.items ++ map command_of (sweep_steps Order.Ring count)) }
{
    push_ring_round(steps, count)?;
    push_ring_round(steps, count)?;
    push_ring_round(steps, count)?;
    push_ring_round(steps, count)?;
    push_leg(steps, Leg::Collects, 1, count)
}

fn push_star_round(steps: &mut Vec<Command>, count: u8) -> Result<(), Memory>
    requires at_least { 2 ≤ count }
    requires at_most { count ≤ 8 }
    ensures { OnOk result (steps.new.items ≡ steps.old.items ++ map command_of (star_round count)) }
{
    push_leg(steps, Leg::Gathers, 2, count - 1)?;
    push_leg(steps, Leg::Spreads, 2, count - 1)
}

fn push_ring_round(steps: &mut Vec<Command>, count: u8) -> Result<(), Memory>
    requires at_least { 2 ≤ count }
    requires at_most { count ≤ 8 }
    ensures { OnOk result (steps.new.items ≡ steps.old.items ++ map command_of (ring_round count)) }
{
    push_leg(steps, Leg::HandsOn, 2, count - 1)?;
    steps.push(Command::Pull { by: 1, to: count })?;
    Ok(())
}

fn push_leg(steps: &mut Vec<Command>, leg: Leg, first: u8, count: u8) -> Result<(), Memory>
    requires first { 1 ≤ first }
    requires fits { first + count ≤ 9 }
    ensures { OnOk result (steps.new.items ≡ steps.old.items ++ map command_of (leg_steps (leg_of leg) first count)) }
{
    for before in 0..count {
        steps.push(step_of(leg, first + before))?;
    }
    Ok(())
}

fn step_of(leg: Leg, member: u8) -> Command
    requires { 1 ≤ member }
    ensures { result ≡ command_of (leg_step (leg_of leg) member) }
{
    match leg {
        Leg::Gathers => Command::Pull { by: 1, to: member },
        Leg::Spreads => Command::Pull { by: member, to: 1 },
        Leg::HandsOn => Command::Pull {
            by: member,
            to: member - 1,
        },
        Leg::Collects => Command::Collect { by: member },
    }
}
