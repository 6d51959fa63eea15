// Calls of the program over sources and sinks in memory.
use ficus_disk::{Disk, Pair};
use ficus_outside::{MemSink, MemSource};
use ficus_top::{Status, ficus};
use std::alloc::{AllocError, Global};
use std::test::Fail;

/// A call: its words; the lines of its script, each with those of its answer indented below it; and how it ends.
#[derive(Clone, Copy)]
pub(crate) struct Call<'a> {
    pub words: &'a str,
    pub lines: &'a str,
    pub ended: Status,
}

/// Every command was answered.
pub(crate) const DONE: Status = Status {
    code: 0,
    line: 0,
    replica: 0,
};

fn words_of(alloc: Global, words: &str) -> Result<Vec<String>, AllocError> {
    let mut list = Vec::new(alloc);
    for word in words.split(' ') {
        list.push(String::from_str(alloc, word)?)?;
    }
    Ok(list)
}

fn push_line(text: &mut String, line: &str) -> Result<(), AllocError> {
    text.push_str(line)?;
    text.push('\n')
}

fn script_of(alloc: Global, lines: &str) -> Result<String, AllocError> {
    let mut script = String::new(alloc);
    for line in lines.lines() {
        if !line.starts_with("    ") {
            push_line(&mut script, line)?;
        }
    }
    Ok(script)
}

/// The answers that stand below the lines of a script.
pub(crate) fn answers_of(alloc: Global, lines: &str) -> Result<String, AllocError> {
    let mut answers = String::new(alloc);
    for line in lines.lines() {
        if let Some(answer) = line.strip_prefix("    ") {
            push_line(&mut answers, answer)?;
        }
    }
    Ok(answers)
}

/// Whether the call over these disks ends so and puts these answers.
pub(crate) fn ends_so<D: Disk>(
    alloc: Global,
    call: &Call<'_>,
    disks: &mut Vec<Pair<D>>,
) -> Result<bool, Fail> {
    let ended = ended_where(alloc, call, 0, 0, disks)?;
    let answers = answers_of(alloc, call.lines)?;
    Ok(ended.status == call.ended && ended.output.written() == answers.as_bytes())
}

/// How a call ended, and what it put.
#[derive(Drop)]
pub(crate) struct Ended {
    pub status: Status,
    pub output: MemSink,
}

/// How the call over these disks ends where this call of the source and this one of the sink fail, counted from 1.
pub(crate) fn ended_where<D: Disk>(
    alloc: Global,
    call: &Call<'_>,
    source_fails: u32,
    sink_fails: u32,
    disks: &mut Vec<Pair<D>>,
) -> Result<Ended, Fail> {
    let script = script_of(alloc, call.lines)?;
    let mut input = MemSource::new(script.into_bytes(), [source_fails].to_vec(alloc)?);
    let mut output = MemSink::new(alloc, [sink_fails].to_vec(alloc)?)?;
    let status = end(alloc, call.words, &mut input, &mut output, disks)?;
    Ok(Ended { status, output })
}

/// How the program ends with these words, over this source, this sink and these disks.
pub(crate) fn end<D: Disk>(
    alloc: Global,
    words: &str,
    input: &mut MemSource,
    output: &mut MemSink,
    disks: &mut Vec<Pair<D>>,
) -> Result<Status, Fail> {
    if disks.len() != 8 {
        return Err("a call is over eight pairs of disks".into());
    }
    let words = words_of(alloc, words)?;
    Ok(ficus(alloc, &words, input, output, disks))
}
