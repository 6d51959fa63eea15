ghost use Rattle.std.specs.Prelude.{◌≡◌, ◌<◌, ◌≤◌, ◌++◌, All, length, IfErr, IfOk, IsErrOf, OnOk};
ghost use Rattle.ficus_faults.specs.Faults.{Rose};
ghost use Rattle.ficus_ids.specs.Members.{IsMember};
ghost use Rattle.ficus_loop.specs.Puts.{PutsFront};
ghost use Rattle.ficus_machine.specs.Machine.{IsAtRest};
ghost use Rattle.ficus_member.specs.Answered.{AnswersAll, AnswersSome, CarriesOutLine, EndsLine, IsOfLines, TellsOfNote};
ghost use Rattle.ficus_member.specs.Lines.{of_member_lines};
ghost use Rattle.ficus_member.specs.Running.{RunsScript};
ghost use Rattle.ficus_member.specs.Seen.{seen_of};
ghost use Rattle.ficus_member_script.specs.MemberAnswer.{member_answer_text_of};
ghost use Rattle.ficus_member_script.specs.MemberLine.{IsMemberScript, IsOwnLine};
ghost use Rattle.ficus_top.specs.Reading.{TakesAll, TakesUntilIn};

use crate::Beside;
use crate::tag_file::read_tag;
use ficus_disk::{Disk, Pair};
use ficus_keeper::Keep;
use ficus_loop::{AnsweringFault, put_all};
use ficus_machine::{LineFault, Machine};
use ficus_mailbox::Mailbox;
use ficus_member_script::{MemberAnswer, MemberLine, member_answer_text, read_member_script};
use ficus_opening::WorldFault;
use ficus_outside::{Sink, Source};
use ficus_script::ScriptFault;
use ficus_top::summary::Keeper;
use ficus_top::{Fault, ReadingFault, read_bytes};
use std::alloc::Global;

/// Reads the script, opens the machine, and answers the lines.
pub(crate) fn run<S: Source, K: Sink, D: Disk, N: Disk + Drop, M: Mailbox>(
    alloc: Global,
    me: u8,
    input: &mut S,
    output: &mut K,
    disks: &mut Vec<Pair<D>>,
    beside: &mut Beside<N>,
    mailbox: &mut M,
) -> Result<(), Fault>
    requires me { IsMember 8 me }
    requires pairs { length disks.old.items ≡ 8 }
    ensures { RunsScript me (seen_of S.Source input.old input.new K.Sink output.old output.new D.Disk disks.old
        disks.new N.Disk beside.old beside.new M.Mailbox mailbox.old mailbox.new) result }
{
    let lines = read_lines(alloc, input)?;
    let tag = read_tag(&mut beside.volume, me)?;
    let mut machine = Machine::<Keeper>::open(alloc, disks, &mut beside.slots, me, tag)?;
    answer_lines(
        alloc,
        &mut machine,
        disks,
        &mut beside.slots,
        mailbox,
        &lines,
        output,
    )
}

// Takes the whole script from the source, and reads its lines.
fn read_lines<S: Source>(alloc: Global, input: &mut S) -> Result<Vec<MemberLine>, ReadingFault>
    ensures each { IfOk result (λ lines. All IsOwnLine lines.items) }
    ensures script { S.tells → IfOk result (λ lines.
        TakesAll (S.left input.old) (S.left input.new) × IsMemberScript (S.left input.old) lines.items) }
    ensures until { S.tells → IfErr result (TakesUntilIn of_member_lines (S.left input.old) (S.left input.new)) }
    ensures failed { IsErrOf result ReadingFault.Source → Rose (S.faults input.old) (S.faults input.new) }
    ensures told { S.faults input.old < S.faults input.new → IsErrOf result ReadingFault.Source }
    ensures counted { S.faults input.old ≤ S.faults input.new }
{
    let bytes = read_bytes(alloc, input)?;
    match read_member_script(alloc, &bytes) {
        Ok(lines) => Ok(lines),
        Err(ScriptFault::BadLine(line)) => Err(ReadingFault::BadLine(line as u32)),
        Err(ScriptFault::Memory) => Err(ReadingFault::Memory),
    }
}

// Answers the lines in order: each answer's text is put after its line was carried out, and before the next one.
fn answer_lines<K: Sink, P: Keep + Drop, D: Disk, N: Disk, M: Mailbox>(
    alloc: Global,
    machine: &mut Machine<P>,
    disks: &mut Vec<Pair<D>>,
    slots: &mut Pair<N>,
    mailbox: &mut M,
    lines: &[MemberLine],
    output: &mut K,
) -> Result<(), Fault>
    requires rest { IsAtRest P.Keep D.Disk N.Disk machine.old disks.old.items slots.old }
    requires lines { All IsOwnLine lines.now }
    ensures answers { OnOk result (AnswersAll P.Keep D.Disk N.Disk M.Mailbox K.Sink lines.now machine.old machine.new
        disks.old.items disks.new.items slots.old slots.new mailbox.old mailbox.new output.old output.new) }
    ensures front { IfErr result (λ fault. AnswersSome P.Keep D.Disk N.Disk M.Mailbox K.Sink lines.now fault
        machine.old machine.new disks.old.items disks.new.items slots.old slots.new mailbox.old mailbox.new output.old
        output.new) }
    ensures kinds { IfErr result (IsOfLines machine.old.me) }
    ensures note { TellsOfNote N.Disk machine.old.me result machine.new slots.old slots.new }
    ensures write_fault { IsErrOf result (Fault.Answering AnsweringFault.Sink)
        → Rose (K.faults output.old) (K.faults output.new) }
    ensures write_fault_comes { K.faults output.old < K.faults output.new
        → IsErrOf result (Fault.Answering AnsweringFault.Sink) }
    ensures counted { K.faults output.old ≤ K.faults output.new }
{
    for line in lines {
        answer_line(alloc, machine, disks, slots, mailbox, line, output)?;
    }
    Ok(())
}

// Carries out a line, and puts the text of its answer.
fn answer_line<K: Sink, P: Keep + Drop, D: Disk, N: Disk, M: Mailbox>(
    alloc: Global,
    machine: &mut Machine<P>,
    disks: &mut Vec<Pair<D>>,
    slots: &mut Pair<N>,
    mailbox: &mut M,
    line: &MemberLine,
    output: &mut K,
) -> Result<(), Fault>
    requires rest { IsAtRest P.Keep D.Disk N.Disk machine.old disks.old.items slots.old }
    requires line { IsOwnLine line.now }
    ensures ends { EndsLine P.Keep D.Disk N.Disk M.Mailbox K.Sink line.now result machine.old machine.new
        disks.old.items disks.new.items slots.old slots.new mailbox.old mailbox.new output.old output.new }
    ensures kinds { IfErr result (IsOfLines machine.old.me) }
    ensures write_fault { IsErrOf result (Fault.Answering AnsweringFault.Sink)
        → Rose (K.faults output.old) (K.faults output.new) }
    ensures write_fault_comes { K.faults output.old < K.faults output.new
        → IsErrOf result (Fault.Answering AnsweringFault.Sink) }
    ensures counted { K.faults output.old ≤ K.faults output.new }
{
    let answer = carried_out(alloc, machine, disks, slots, mailbox, line)?;
    put_answer(alloc, &answer, output)?;
    Ok(())
}

// Carries out a line.
fn carried_out<P: Keep + Drop, D: Disk, N: Disk, M: Mailbox>(
    alloc: Global,
    machine: &mut Machine<P>,
    disks: &mut Vec<Pair<D>>,
    slots: &mut Pair<N>,
    mailbox: &mut M,
    line: &MemberLine,
) -> Result<MemberAnswer, Fault>
    requires rest { IsAtRest P.Keep D.Disk N.Disk machine.old disks.old.items slots.old }
    requires line { IsOwnLine line.now }
    ensures { CarriesOutLine P.Keep D.Disk N.Disk M.Mailbox line.now result machine.old machine.new disks.old.items
        disks.new.items slots.old slots.new mailbox.old mailbox.new }
{
    match machine.carry_out(alloc, disks, slots, mailbox, line) {
        Ok(answer) => Ok(answer),
        Err(LineFault::Memory) => Err(Fault::Answering(AnsweringFault::Memory)),
        Err(LineFault::Note) => Err(Fault::Storing(WorldFault::Store(machine.member()))),
    }
}

// Puts the text of an answer. `Sink` comes exactly where the sink has failed, and a front of the text was put then;
// with `Memory` nothing was.
fn put_answer<K: Sink>(
    alloc: Global,
    answer: &MemberAnswer,
    output: &mut K,
) -> Result<(), AnsweringFault>
    ensures put { OnOk result (K.tells
        → K.written output.new ≡ K.written output.old ++ member_answer_text_of answer.now) }
    ensures front { IsErrOf result AnsweringFault.Sink → K.tells
        → PutsFront (K.written output.old) (member_answer_text_of answer.now) (K.written output.new) }
    ensures silent { IsErrOf result AnsweringFault.Memory → output.new ≡ output.old }
    ensures failed { IsErrOf result AnsweringFault.Sink → Rose (K.faults output.old) (K.faults output.new) }
    ensures told { K.faults output.old < K.faults output.new → IsErrOf result AnsweringFault.Sink }
    ensures counted { K.faults output.old ≤ K.faults output.new }
{
    let text = member_answer_text(alloc, answer)?;
    put_all(output, &text)?;
    Ok(())
}
