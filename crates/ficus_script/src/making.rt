ghost use Rattle.std.specs.Prelude.{◌≡◌, IfOk, IfSome};
ghost use Rattle.ficus_ids.specs.Kind.{sort_of};
ghost use Rattle.ficus_ids.specs.declared.kind.Sort.TheVariants.{Versioned};
ghost use Rattle.ficus_path.specs.Path.{IsPath};
ghost use Rattle.ficus_path.specs.Text.{SpellsText};
ghost use Rattle.ficus_script.specs.Arguments.{AreArguments, IsReplicaNumber, arguments_of};
ghost use Rattle.ficus_script.specs.Command.{of_replica};
ghost use Rattle.ficus_script.specs.Line.{IsReadingAt};
ghost use Rattle.ficus_script.specs.Verb.{kind_command, path_command, paths_command, text_command};
ghost use Rattle.ficus_script.specs.Arguments.{OnePath, PathAndKind, PathAndText, TwoPaths};
ghost use Rattle.ficus_script.specs.declared.command.Command.TheVariants as command;

use crate::Command;
use crate::arguments::Shape;
use crate::line::LineFault;
use crate::line_paths::LinePaths;
use crate::verbs::{
    KindVerb, PathVerb, PathsVerb, TextVerb, kind_verb, path_verb, paths_verb, text_verb,
    with_arming, with_nothing, with_number, with_order, with_replicas,
};
use ficus_commands::{Change, Look};
use ficus_ids::{Kind, Listed, Memory};
use ficus_path::{Path, PathDraft, TextDraft};
use std::alloc::Global;

/// The command that is spelled by the verb between these. It takes memory only where there is one.
pub(crate) fn command_of(
    alloc: Global,
    by: Option<u8>,
    verb: &[u8],
    paths: &LinePaths,
    behind: &Shape,
) -> Result<Command, LineFault>
    requires replica { IfSome by IsReplicaNumber }
    requires arguments { AreArguments (arguments_of paths.now behind.now) }
    ensures { IsReadingAt (record { by = by; verb = verb.now; behind = arguments_of paths.now behind.now }) result }
{
    match (by, behind) {
        (Some(by), Shape::Nothing) => with_nothing(by, verb).ok_or(LineFault::NotCommand),
        (Some(by), Shape::OnePath) => with_path(alloc, by, verb, &paths.first),
        (Some(by), Shape::PathAndKind(kind)) => with_kind(alloc, by, verb, &paths.first, *kind),
        (Some(by), Shape::PathAndText(text)) => with_text(alloc, by, verb, &paths.first, text),
        (Some(by), Shape::TwoPaths) => with_paths(alloc, by, verb, &paths.first, &paths.second),
        (None, Shape::OneNumber(number)) => with_number(verb, *number).ok_or(LineFault::NotCommand),
        (None, Shape::OneOrder(order)) => with_order(verb, *order).ok_or(LineFault::NotCommand),
        (None, Shape::TwoReplicas(first, second)) => {
            with_replicas(verb, *first, *second).ok_or(LineFault::NotCommand)
        }
        (None, Shape::Arming(by, calls, pick)) => {
            with_arming(verb, *by, *calls, *pick).ok_or(LineFault::NotCommand)
        }
        _ => Err(LineFault::NotCommand),
    }
}

fn with_path(alloc: Global, by: u8, verb: &[u8], path: &PathDraft) -> Result<Command, LineFault>
    requires replica { IsReplicaNumber by }
    requires path { IsPath path.now }
    ensures { IsReadingAt (of_replica by verb.now (OnePath path.now)) result }
{
    let Some(verb) = path_verb(verb, path) else {
        return Err(LineFault::NotCommand);
    };
    let path = path.path(alloc)?;
    Ok(path_command(by, path, verb))
}

fn path_command(by: u8, path: Path, verb: PathVerb) -> Command
    ensures { result ≡ path_command by path verb }
{
    match verb {
        PathVerb::MkDir => change(by, Change::MkDir { path }),
        PathVerb::Rm => change(by, Change::Rm { path }),
        PathVerb::Resolve => change(by, Change::Resolve { path }),
        PathVerb::Discard(orphan) => change(by, Change::Discard { orphan }),
        PathVerb::Ls => look(by, Look::Ls { path }),
        PathVerb::Read => look(by, Look::Read { path }),
        PathVerb::Versions => look(by, Look::Versions { path }),
        PathVerb::ReadLink => look(by, Look::ReadLink { path }),
    }
}

fn with_kind(
    alloc: Global,
    by: u8,
    verb: &[u8],
    path: &PathDraft,
    kind: Kind,
) -> Result<Command, LineFault>
    requires replica { IsReplicaNumber by }
    requires path { IsPath path.now }
    requires kind { sort_of kind ≡ Versioned }
    ensures { IsReadingAt (of_replica by verb.now (PathAndKind path.now kind)) result }
{
    let Some(verb) = kind_verb(verb, path) else {
        return Err(LineFault::NotCommand);
    };
    let path = path.path(alloc)?;
    Ok(kind_command(by, path, kind, verb))
}

fn kind_command(by: u8, path: Path, kind: Kind, verb: KindVerb) -> Command
    ensures { result ≡ kind_command by path kind verb }
{
    match verb {
        KindVerb::Create => change(by, Change::Create { path, kind }),
    }
}

fn with_text(
    alloc: Global,
    by: u8,
    verb: &[u8],
    path: &PathDraft,
    text: &TextDraft,
) -> Result<Command, LineFault>
    requires replica { IsReplicaNumber by }
    requires path { IsPath path.now }
    requires text { SpellsText text.now }
    ensures { IsReadingAt (of_replica by verb.now (PathAndText path.now text.now)) result }
{
    let Some(verb) = text_verb(verb, path, text) else {
        return Err(LineFault::NotCommand);
    };
    let path = path.path(alloc)?;
    let text = text.text(alloc)?;
    Ok(text_command(by, path, Listed::of(text), verb))
}

fn text_command(by: u8, path: Path, text: Listed<u8>, verb: TextVerb) -> Command
    ensures { result ≡ text_command by path text verb }
{
    match verb {
        TextVerb::Symlink => change(by, Change::Symlink { path, text }),
        TextVerb::Write => change(by, Change::Write { path, text }),
        TextVerb::Settle => change(by, Change::Settle { path, text }),
    }
}

fn with_paths(
    alloc: Global,
    by: u8,
    verb: &[u8],
    from: &PathDraft,
    path: &PathDraft,
) -> Result<Command, LineFault>
    requires replica { IsReplicaNumber by }
    requires from { IsPath from.now }
    requires path { IsPath path.now }
    ensures { IsReadingAt (of_replica by verb.now (TwoPaths from.now path.now)) result }
{
    let Some(verb) = paths_verb(verb, from, path) else {
        return Err(LineFault::NotCommand);
    };
    let from = from.path(alloc)?;
    let path = path.path(alloc)?;
    Ok(paths_command(by, from, path, verb))
}

fn paths_command(by: u8, from: Path, path: Path, verb: PathsVerb) -> Command
    ensures { result ≡ paths_command by from path verb }
{
    match verb {
        PathsVerb::Ln => change(by, Change::Ln { from, path }),
        PathsVerb::Mv => change(by, Change::Mv { from, path }),
        PathsVerb::Adopt(orphan) => change(by, Change::Adopt { orphan, path }),
    }
}

fn change(by: u8, change: Change) -> Command
    ensures { result ≡ command.Change by change }
{
    Command::Change { by, change }
}

fn look(by: u8, look: Look) -> Command
    ensures { result ≡ command.Look by look }
{
    Command::Look { by, look }
}
