ghost use Rattle.std.specs.Prelude.{◌↔◌, IsTrue};

use crate::Order;
use ficus_commands::{Change, Look};

/// What a line of a script asks for. The numbers of replicas are from 1 to 255; a world refuses those of no
/// member, and those of no message. A text may have any length; a world refuses one that is too long for a file, or for
/// a symbolic link.
#[derive(Drop)]
pub enum Command {
    /// A change by replica `by`: `R mkdir N`, `R create N KIND`, `R symlink N TEXT` with a text that isn't empty,
    /// `R write P TEXT`, `R settle P TEXT`, `R resolve P`, `R rm E`, `R ln E N`, `R mv E N`, `R adopt ~ID N`,
    /// `R discard ~ID`.
    Change { by: u8, change: Change },
    /// A look at replica `by`: `R ls P`, `R read P`, `R versions P`, `R readlink P`, `R tree`, `R conflicts`,
    /// `R orphans`, `R detached`, `R marks`.
    Look { by: u8, look: Look },
    /// `R collect`: replica `by` gives up each removed entry of which it knows that all members know that all know, and
    /// the files and directories thus left.
    Collect { by: u8 },
    /// `ask R S`: replica `by` asks replica `to` for its state.
    Ask { by: u8, to: u8 },
    /// `give M`: the message with this number is given to its receiver. An ask is served, and an answer is taken.
    Give { mail: u32 },
    /// `pull R S`: replica `by` takes over what replica `to` knows, by an ask and the two gives of its messages.
    Pull { by: u8, to: u8 },
    /// `alike R S`: whether replicas `by` and `other` show the same.
    Alike { by: u8, other: u8 },
    /// `restart R`: the replica restarts. It no longer takes an answer to an earlier ask.
    Restart { by: u8 },
    /// `stop R K PICK`: the disks of replica `by` stop after `calls` more calls that write or sync; `pick`, from 0 to
    /// 3, says which of the images that a crash may then leave is found by the next restart.
    Stop { by: u8, calls: u32, pick: u8 },
    /// `sweep star`, `sweep ring`: the pulls of the order, and then a collection by each replica, up to the first
    /// refusal.
    Sweep { order: Order },
    /// `R why`: for each file in conflict at replica `by`, two updates of this run that clash.
    Why { by: u8 },
}

impl Command {
    ghost use Rattle.ficus_script.specs.Command.{IsStep};

    /// Whether it is one step of a world: every command is, but a sweep, which is several, and why, which asks only
    /// what is stored.
    pub fn is_step(&self) -> bool
        ensures { IsTrue result ↔ IsStep self.now }
    {
        match self {
            Command::Sweep { .. } | Command::Why { .. } => false,
            Command::Change { .. }
            | Command::Look { .. }
            | Command::Collect { .. }
            | Command::Ask { .. }
            | Command::Give { .. }
            | Command::Pull { .. }
            | Command::Alike { .. }
            | Command::Restart { .. }
            | Command::Stop { .. } => true,
        }
    }
}
