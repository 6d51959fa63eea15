//! What machines do together, as laws.
ghost use Rattle.ficus_world.specs.Machines.Found.{IdleIsFound, SavingIsFound};
ghost use Rattle.ficus_world.specs.Machines.Laws.{KilledProcessesGoOn, MachinesAreLawful};
ghost use Rattle.ficus_world.specs.Machines.Laws.{MachinesStayOneWorld, NothingReturnsAnywhere, OneMessageOfAName};
ghost use Rattle.ficus_world.specs.Machines.Laws.{OpenedAreOneWorld, ProcessesJoin, RunsJoin};

use ficus_disk::Disk;
use ficus_keeper::Keep;
use ficus_stable_storage::one_saved;

/// Machines that keep a member each of one world go on as one world, in whichever order they act, and whichever
/// messages are lost, late or repeated: each answers as that world does.
pub fn machines_stay_one_world()
    ensures { MachinesStayOneWorld }
{}

/// What has happened on them is lawful, and what was given up is given up for good.
pub fn machines_are_lawful()
    ensures { MachinesAreLawful }
{}

/// What a member knew to be removed never returns to it.
pub fn nothing_returns_anywhere()
    ensures { NothingReturnsAnywhere }
{}

/// Machines that were each opened on fresh disks are one world.
pub fn opened_are_one_world()
    ensures { OpenedAreOneWorld }
{}

/// What a process does alone is a run of all machines, where each message that came to it had been posted.
pub fn processes_join()
    ensures { ProcessesJoin }
{}

/// Runs of all machines may stand one behind the other.
pub fn runs_join()
    ensures { RunsJoin }
{}

/// Messages that go the same way, are of the same ask, and of the same state and index where they are pieces, are one.
pub fn one_message_of_a_name()
    ensures { OneMessageOfAName }
{}

/// A process that was killed in a step, and the next one, do what a machine may do: the step is done, or it isn't.
pub fn killed_processes_go_on()
    ensures { KilledProcessesGoOn }
{}

/// What the disks of a machine hold after a kill is what its member had, or what it then has: what
/// `killed_processes_go_on` asks for.
pub fn killed_disks_are_found<K: Keep + Drop, D: Disk>()
    ensures idle { D.tells → IdleIsFound K.Keep D.Disk }
    ensures saving { D.tells → D.tells_moments → SavingIsFound K.Keep D.Disk }
{
    one_saved();
}
