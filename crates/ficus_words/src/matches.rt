ghost use Rattle.std.specs.Prelude.{◌≡◌, false, IfOk, map, string_bytes};
ghost use Rattle.clap.specs.Words.{found_of, rows_of, rule_of, matches_of, fault_of, FailsBy};
ghost use Rattle.ficus_words.specs.Clap.{ficus_app, option_rule};

use clap::{Arg, ArgMatches, Command, Error};
use std::alloc::Global;

/// What `clap` finds in the words by one simple command: two places, eight options, and no help.
pub(crate) fn matches_in<'a>(alloc: Global, words: &'a [String]) -> Result<ArgMatches<'a>, Error>
    ensures fails { FailsBy (fault_of ficus_app (map string_bytes words.entry.now)) result }
    ensures rows { IfOk result
        (λ found. rows_of (found_of found) ≡ matches_of ficus_app (map string_bytes words.entry.now)) }
{
    let places = Command::new(alloc, "ficus")
        .disable_help_flag(true)
        .arg(Arg::new(alloc, "mode"))?
        .arg(Arg::new(alloc, "root"))?;
    let command = places
        .arg(option(alloc, "members"))?
        .arg(option(alloc, "ids"))?
        .arg(option(alloc, "bytes"))?
        .arg(option(alloc, "seed"))?
        .arg(option(alloc, "steps"))?
        .arg(option(alloc, "volumes"))?
        .arg(option(alloc, "replica"))?
        .arg(option(alloc, "tag"))?;
    command.try_get_matches_from(words)
}

// An option with one value.
fn option<'a>(alloc: Global, name: &'a str) -> Arg<'a>
    ensures rule { rule_of result ≡ option_rule name.entry.now }
    ensures local { result.global ≡ false }
{
    Arg::new(alloc, name).long(name)
}
