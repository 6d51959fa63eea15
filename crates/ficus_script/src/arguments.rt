ghost use Rattle.std.specs.Prelude.{◌≡◌, ◌↔◌, IsTrue, None, Some, IfSome, IfNone, option_map};
ghost use Rattle.ficus_ids.specs.Kind.{kind_word, sort_of};
ghost use Rattle.ficus_ids.specs.declared.kind.Kind.{Kind};
ghost use Rattle.ficus_ids.specs.declared.kind.Sort.TheVariants.{Versioned};
ghost use Rattle.ficus_path.specs.Path.{IsPath};
ghost use Rattle.ficus_path.specs.Spelling.{path_text};
ghost use Rattle.ficus_script.specs.Arguments.{arguments_of, bytes_of, BeginsPath, BeginsText, IsReadingBehind, IsReadingWords};
ghost use Rattle.ficus_script.specs.declared.line_paths.LinePaths.{LinePaths};

use crate::Order;
use crate::cut::cut_at;
use crate::line_paths::LinePaths;
use crate::order::read_order;
use crate::pick::read_pick;
use crate::replica::read_replica;
use ficus_ids::{Kind, read_number};
use ficus_path::TextDraft;

/// What stands behind the verb of a command, by its shape, but for its paths, which are read into `LinePaths`.
#[derive(Drop)]
pub(crate) enum Shape<'a> {
    /// Nothing: the line ends with the verb.
    Nothing,
    /// One path, the first.
    OnePath,
    /// The first path and the kind of a file.
    PathAndKind(Kind),
    /// The first path and a text. The text is all that stands behind the path and a space, to the end of the line.
    PathAndText(TextDraft<'a>),
    /// Both paths.
    TwoPaths,
    /// One number, that of a message or of a replica.
    OneNumber(u32),
    /// The order of a sweep.
    OneOrder(Order),
    /// The numbers of two replicas.
    TwoReplicas(u8, u8),
    /// The number of a replica, a number of calls, and a pick.
    Arming(u8, u32, u8),
}

/// The arguments that stand behind a verb, where a space and these bytes do, or nothing. They are read without memory,
/// and are `None` exactly where the bytes spell none. What the paths are that have no part in them is not said.
pub(crate) fn read_arguments<'a>(
    behind: Option<&'a [u8]>,
    paths: &mut LinePaths,
) -> Option<Shape<'a>>
    ensures { IsReadingBehind (bytes_of behind.entry) (option_map (arguments_of paths.new) result) }
{
    let Some(words) = behind else {
        return Some(Shape::Nothing);
    };
    let (first, rest) = cut_at(words, b' ');
    if begins_path(first) {
        path_first(first, rest, paths)
    } else {
        number_first(first, rest)
    }
}

fn begins_path(word: &[u8]) -> bool
    ensures { IsTrue result ↔ BeginsPath word.now }
{
    matches!(word, [b'/' | b'~', ..])
}

// The shapes whose first word is a path.
fn path_first<'a>(first: &[u8], rest: Option<&'a [u8]>, paths: &mut LinePaths) -> Option<Shape<'a>>
    requires { BeginsPath first.now }
    ensures { IsReadingWords first.now (bytes_of rest.entry) (option_map (arguments_of paths.new) result) }
{
    paths.first.read(first)?;
    match rest {
        None => Some(Shape::OnePath),
        Some(last) => path_and_last(last, paths),
    }
}

// The shapes of a path, which is read already, and something behind it.
fn path_and_last<'a>(last: &'a [u8], paths: &mut LinePaths) -> Option<Shape<'a>>
    requires { IsPath paths.old.first }
    ensures { IsReadingWords (path_text paths.old.first) (Some last.now) (option_map (arguments_of paths.new) result) }
{
    if begins_text(last) {
        let text = TextDraft::new(last)?;
        Some(Shape::PathAndText(text))
    } else if begins_path(last) {
        paths.second.read(last)?;
        Some(Shape::TwoPaths)
    } else {
        let kind = read_kind(last)?;
        Some(Shape::PathAndKind(kind))
    }
}

fn begins_text(word: &[u8]) -> bool
    ensures { IsTrue result ↔ BeginsText word.now }
{
    matches!(word, [b'"', ..])
}

// The kind of a file whose versions change that the word spells, or `None` exactly where it spells none. Those of
// directories and of symbolic links aren't such.
fn read_kind(word: &[u8]) -> Option<Kind>
    ensures kind { IfSome result (λ kind. sort_of kind ≡ Versioned) }
    ensures found { IfSome result (λ kind. word.now ≡ kind_word kind) }
    ensures none { IfNone result ((kind : Kind) → sort_of kind ≡ Versioned → word.now ≡ kind_word kind → ⊥) }
{
    match word {
        b"plain" => Some(Kind::Plain),
        b"lines" => Some(Kind::Lines),
        b"max" => Some(Kind::Max),
        b"keep" => Some(Kind::Keep),
        _ => None,
    }
}

// The shapes whose first word is a number, or the order of a sweep.
fn number_first<'a>(first: &[u8], rest: Option<&[u8]>) -> Option<Shape<'a>>
    requires { BeginsPath first.now → ⊥ }
    ensures { (paths : LinePaths) →
        IsReadingWords first.now (bytes_of rest.entry) (option_map (arguments_of paths) result) }
{
    match rest {
        None => one_word(first),
        Some(words) => replica_first(first, words),
    }
}

// The shapes of one word that is no path.
fn one_word<'a>(word: &[u8]) -> Option<Shape<'a>>
    requires { BeginsPath word.now → ⊥ }
    ensures { (paths : LinePaths) → IsReadingWords word.now None (option_map (arguments_of paths) result) }
{
    match read_order(word) {
        Some(order) => Some(Shape::OneOrder(order)),
        None => Some(Shape::OneNumber(read_number(word)?)),
    }
}

// The shapes whose first word is the number of a replica, with something behind it.
fn replica_first<'a>(first: &[u8], words: &[u8]) -> Option<Shape<'a>>
    requires { BeginsPath first.now → ⊥ }
    ensures { (paths : LinePaths) →
        IsReadingWords first.now (Some words.now) (option_map (arguments_of paths) result) }
{
    let by = read_replica(first)?;
    let (second, last) = cut_at(words, b' ');
    match last {
        None => Some(Shape::TwoReplicas(by, read_replica(second)?)),
        Some(last) => Some(Shape::Arming(by, read_number(second)?, read_pick(last)?)),
    }
}
