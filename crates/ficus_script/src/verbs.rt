ghost use Rattle.std.specs.Prelude.{◌≡◌, ◌↔◌, ◌<◌, ℕ, List, IsTrue, IfSome, codes, option_map};
ghost use Rattle.ficus_ids.specs.declared.kind.Kind.{Kind};
ghost use Rattle.ficus_ids.specs.Kind.{sort_of};
ghost use Rattle.ficus_ids.specs.declared.kind.Sort.TheVariants.{Versioned};
ghost use Rattle.ficus_path.specs.Path.{IsNew, IsPath};
ghost use Rattle.ficus_path.specs.Text.{quoted_text};
ghost use Rattle.ficus_script.specs.Arguments.{AreArguments, IsReplicaNumber, arguments_of};
ghost use Rattle.ficus_script.specs.Command.{IsCommandOf, IsSpelled, IsSpelledStep, Spelling, of_none, of_replica};
ghost use Rattle.ficus_script.specs.Verb.{kind_command, path_command, paths_command, text_command};
ghost use Rattle.ficus_script.specs.Arguments.{Nothing, OnePath, PathAndKind, PathAndText, TwoPaths, OneNumber, OneOrder, TwoReplicas, Arming};

use crate::arguments::Shape;
use crate::line_paths::LinePaths;
use crate::replica::is_replica;
use crate::{Command, Order};
use ficus_commands::Look;
use ficus_ids::Id;
use ficus_path::{PathDraft, TextDraft};

/// The verbs that stand before one path; before that of an orphan alone, with the orphan.
#[derive(Clone, Copy)]
pub(crate) enum PathVerb {
    MkDir,
    Rm,
    Resolve,
    Discard(Id),
    Ls,
    Read,
    Versions,
    ReadLink,
}

/// The verb that stands before a path and the kind of a file.
#[derive(Clone, Copy)]
pub(crate) enum KindVerb {
    Create,
}

/// The verbs that stand before a path and a text.
#[derive(Clone, Copy)]
pub(crate) enum TextVerb {
    Symlink,
    Write,
    Settle,
}

/// The verbs that stand before two paths; where the first is that of an orphan alone, with the orphan.
#[derive(Clone, Copy)]
pub(crate) enum PathsVerb {
    Ln,
    Mv,
    Adopt(Id),
}

/// Whether a command is spelled by the verb between these, which is found without memory.
pub(crate) fn is_command_of(by: Option<u8>, verb: &[u8], paths: &LinePaths, behind: &Shape) -> bool
    requires replica { IfSome by IsReplicaNumber }
    requires arguments { AreArguments (arguments_of paths.now behind.now) }
    ensures { IsTrue result ↔
        IsSpelled (record { by = by; verb = verb.now; behind = arguments_of paths.now behind.now }) }
{
    match (by, behind) {
        (Some(by), Shape::Nothing) => is_one(with_nothing(by, verb)),
        (Some(_), Shape::OnePath) => path_verb(verb, &paths.first).is_some(),
        (Some(_), Shape::PathAndKind(_)) => kind_verb(verb, &paths.first).is_some(),
        (Some(_), Shape::PathAndText(text)) => text_verb(verb, &paths.first, text).is_some(),
        (Some(_), Shape::TwoPaths) => paths_verb(verb, &paths.first, &paths.second).is_some(),
        (None, Shape::OneNumber(number)) => is_one(with_number(verb, *number)),
        (None, Shape::OneOrder(order)) => is_one(with_order(verb, *order)),
        (None, Shape::TwoReplicas(first, second)) => is_one(with_replicas(verb, *first, *second)),
        (None, Shape::Arming(by, calls, pick)) => is_one(with_arming(verb, *by, *calls, *pick)),
        _ => false,
    }
}

/// Whether a command that is one step of a world is spelled by the verb between these, which is found without memory.
pub(crate) fn is_step_of(by: Option<u8>, verb: &[u8], paths: &LinePaths, behind: &Shape) -> bool
    requires replica { IfSome by IsReplicaNumber }
    requires arguments { AreArguments (arguments_of paths.now behind.now) }
    ensures { IsTrue result ↔
        IsSpelledStep (record { by = by; verb = verb.now; behind = arguments_of paths.now behind.now }) }
{
    match (by, behind) {
        (Some(by), Shape::Nothing) => is_step(with_nothing(by, verb)),
        (None, Shape::OneOrder(order)) => is_step(with_order(verb, *order)),
        _ => is_command_of(by, verb, paths, behind),
    }
}

// Whether a command was found that is one step of a world.
fn is_step(found: Option<Command>) -> bool
    ensures { (spelling : Spelling) → IsCommandOf spelling found → (IsTrue result ↔ IsSpelledStep spelling) }
{
    match found {
        Some(command) => command.is_step(),
        None => false,
    }
}

// Whether a command was found.
fn is_one(found: Option<Command>) -> bool
    ensures { (spelling : Spelling) → IsCommandOf spelling found → (IsTrue result ↔ IsSpelled spelling) }
{
    found.is_some()
}

/// The command that the verb makes of the number before it, with nothing behind it.
pub(crate) fn with_nothing(by: u8, verb: &[u8]) -> Option<Command>
    requires { IsReplicaNumber by }
    ensures { IsCommandOf (of_replica by verb.now Nothing) result }
{
    match verb {
        _ if verb == b"tree".as_slice() => Some(Command::Look {
            by,
            look: Look::Tree,
        }),
        _ if verb == b"conflicts".as_slice() => Some(Command::Look {
            by,
            look: Look::Conflicts,
        }),
        _ if verb == b"orphans".as_slice() => Some(Command::Look {
            by,
            look: Look::Orphans,
        }),
        _ if verb == b"detached".as_slice() => Some(Command::Look {
            by,
            look: Look::Detached,
        }),
        _ if verb == b"marks".as_slice() => Some(Command::Look {
            by,
            look: Look::Marks,
        }),
        _ if verb == b"collect".as_slice() => Some(Command::Collect { by }),
        _ if verb == b"why".as_slice() => Some(Command::Why { by }),
        _ => None,
    }
}

/// The verb that stands before the path, or `None` exactly where the word is none that may.
pub(crate) fn path_verb(verb: &[u8], path: &PathDraft) -> Option<PathVerb>
    requires { IsPath path.now }
    ensures { (by : ℕ) → IsReplicaNumber by →
        IsCommandOf (of_replica by verb.now (OnePath path.now)) (option_map (path_command by path.now) result) }
{
    match verb {
        _ if verb == b"mkdir".as_slice() && path.is_new() => Some(PathVerb::MkDir),
        _ if verb == b"rm".as_slice() && path.is_entry() => Some(PathVerb::Rm),
        _ if verb == b"resolve".as_slice() => Some(PathVerb::Resolve),
        _ if verb == b"discard".as_slice() => discard(path),
        _ if verb == b"ls".as_slice() => Some(PathVerb::Ls),
        _ if verb == b"read".as_slice() => Some(PathVerb::Read),
        _ if verb == b"versions".as_slice() => Some(PathVerb::Versions),
        _ if verb == b"readlink".as_slice() => Some(PathVerb::ReadLink),
        _ => None,
    }
}

fn discard(path: &PathDraft) -> Option<PathVerb>
    requires { IsPath path.now }
    ensures { (by : ℕ) → IsReplicaNumber by → IsCommandOf (of_replica by (codes "discard") (OnePath path.now))
        (option_map (path_command by path.now) result) }
{
    let orphan = path.orphan()?;
    Some(PathVerb::Discard(orphan))
}

/// The verb that stands before the path and the kind of a file, or `None` exactly where the word is none that may.
pub(crate) fn kind_verb(verb: &[u8], path: &PathDraft) -> Option<KindVerb>
    requires { IsPath path.now }
    ensures { (by : ℕ) (kind : Kind) → IsReplicaNumber by → sort_of kind ≡ Versioned →
        IsCommandOf (of_replica by verb.now (PathAndKind path.now kind))
        (option_map (kind_command by path.now kind) result) }
{
    match verb {
        _ if verb == b"create".as_slice() && path.is_new() => Some(KindVerb::Create),
        _ => None,
    }
}

/// The verb that stands before a path and a text, or `None` exactly where the word is none that may.
pub(crate) fn text_verb(verb: &[u8], path: &PathDraft, text: &TextDraft) -> Option<TextVerb>
    requires { IsPath path.now }
    ensures { (by : ℕ) (it : List ℕ) → IsReplicaNumber by → text.now ≡ quoted_text it →
        IsCommandOf (of_replica by verb.now (PathAndText path.now (quoted_text it)))
        (option_map (text_command by path.now it) result) }
{
    match verb {
        _ if verb == b"symlink".as_slice() && path.is_new() => symlink(path, text),
        _ if verb == b"write".as_slice() => Some(TextVerb::Write),
        _ if verb == b"settle".as_slice() => Some(TextVerb::Settle),
        _ => None,
    }
}

fn symlink(path: &PathDraft, text: &TextDraft) -> Option<TextVerb>
    requires path { IsPath path.now }
    requires new { IsNew path.now }
    ensures { (by : ℕ) (it : List ℕ) → IsReplicaNumber by → text.now ≡ quoted_text it →
        IsCommandOf (of_replica by (codes "symlink") (PathAndText path.now (quoted_text it)))
        (option_map (text_command by path.now it) result) }
{
    if text.is_empty() {
        None
    } else {
        Some(TextVerb::Symlink)
    }
}

/// The verb that stands before the two paths, or `None` exactly where the word is none that may.
pub(crate) fn paths_verb(verb: &[u8], from: &PathDraft, path: &PathDraft) -> Option<PathsVerb>
    requires from { IsPath from.now }
    requires path { IsPath path.now }
    ensures { (by : ℕ) → IsReplicaNumber by →
        IsCommandOf (of_replica by verb.now (TwoPaths from.now path.now))
        (option_map (paths_command by from.now path.now) result) }
{
    if !path.is_new() {
        return None;
    }
    match verb {
        _ if verb == b"ln".as_slice() && from.is_entry() => Some(PathsVerb::Ln),
        _ if verb == b"mv".as_slice() && from.is_entry() => Some(PathsVerb::Mv),
        _ if verb == b"adopt".as_slice() => adopt(from, path),
        _ => None,
    }
}

fn adopt(from: &PathDraft, path: &PathDraft) -> Option<PathsVerb>
    requires from { IsPath from.now }
    requires path { IsPath path.now }
    requires new { IsNew path.now }
    ensures { (by : ℕ) → IsReplicaNumber by → IsCommandOf (of_replica by (codes "adopt") (TwoPaths from.now path.now))
        (option_map (paths_command by from.now path.now) result) }
{
    let orphan = from.orphan()?;
    Some(PathsVerb::Adopt(orphan))
}

/// The command that the verb makes of one number behind it.
pub(crate) fn with_number(verb: &[u8], number: u32) -> Option<Command>
    ensures { IsCommandOf (of_none verb.now (OneNumber number)) result }
{
    match verb {
        _ if verb == b"give".as_slice() => Some(Command::Give { mail: number }),
        _ if verb == b"restart".as_slice() && is_replica(number) => Some(Command::Restart {
            by: number as u8,
        }),
        _ => None,
    }
}

/// The command that the verb makes of the order of a sweep behind it.
pub(crate) fn with_order(verb: &[u8], order: Order) -> Option<Command>
    ensures { IsCommandOf (of_none verb.now (OneOrder order)) result }
{
    match verb {
        _ if verb == b"sweep".as_slice() => Some(Command::Sweep { order }),
        _ => None,
    }
}

/// The command that the verb makes of the numbers of two replicas behind it.
pub(crate) fn with_replicas(verb: &[u8], by: u8, to: u8) -> Option<Command>
    requires by { IsReplicaNumber by }
    requires to { IsReplicaNumber to }
    ensures { IsCommandOf (of_none verb.now (TwoReplicas by to)) result }
{
    match verb {
        _ if verb == b"ask".as_slice() => Some(Command::Ask { by, to }),
        _ if verb == b"pull".as_slice() => Some(Command::Pull { by, to }),
        _ if verb == b"alike".as_slice() => Some(Command::Alike { by, other: to }),
        _ => None,
    }
}

/// The command that the verb makes of the number of a replica, a number of calls and a pick behind it.
pub(crate) fn with_arming(verb: &[u8], by: u8, calls: u32, pick: u8) -> Option<Command>
    requires replica { IsReplicaNumber by }
    requires pick { pick < 4 }
    ensures { IsCommandOf (of_none verb.now (Arming by calls pick)) result }
{
    match verb {
        _ if verb == b"stop".as_slice() => Some(Command::Stop { by, calls, pick }),
        _ => None,
    }
}
