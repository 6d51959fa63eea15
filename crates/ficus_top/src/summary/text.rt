ghost use Rattle.std.specs.Prelude.{◌≡◌, ◌++◌, IfOk, OnOk};
ghost use Rattle.ficus_top.specs.Summary.Text.{counts_text, holding_line, holding_lines, summary_text};

use crate::summary::counts::Counts;
use ficus_ids::Memory;
use ficus_opening::check::Holding;
use std::alloc::Global;

/// Each count on a line of its own, and then what each member holds.
pub(crate) fn summary_text(
    alloc: Global,
    counts: Counts,
    holdings: &[Holding],
) -> Result<Vec<u8>, Memory>
    ensures { IfOk result (λ text. text.items ≡ summary_text counts holdings.now) }
{
    let mut text = counts_text(alloc, counts)?;
    append_holdings(alloc, &mut text, holdings)?;
    Ok(text)
}

// Each count on a line of its own.
fn counts_text(alloc: Global, counts: Counts) -> Result<Vec<u8>, Memory>
    ensures { IfOk result (λ text. text.items ≡ counts_text counts) }
{
    let Counts {
        lines,
        ok,
        no,
        events,
    } = counts;
    let text = format!(in alloc; "lines {lines}\nok {ok}\nno {no}\nevents {events}\n")?;
    Ok(text.into_bytes())
}

// Adds a line for each member.
fn append_holdings(alloc: Global, text: &mut Vec<u8>, holdings: &[Holding]) -> Result<(), Memory>
    ensures { OnOk result (text.new.items ≡ text.old.items ++ holding_lines 1 holdings.now) }
{
    for index in 0..holdings.len() {
        append_holding(alloc, text, index + 1, &holdings[index])?;
    }
    Ok(())
}

// Adds the line of the member.
fn append_holding(
    alloc: Global,
    text: &mut Vec<u8>,
    member: usize,
    holding: &Holding,
) -> Result<(), Memory>
    ensures { OnOk result (text.new.items ≡ text.old.items ++ holding_line member holding.now) }
{
    let Holding {
        live,
        dead,
        objects,
    } = *holding;
    let line = format!(in alloc; "replica {member} live {live} dead {dead} objects {objects}\n")?;
    text.extend_from_slice(line.as_bytes())?;
    Ok(())
}
