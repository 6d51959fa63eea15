//! A tour of the library: two offices keep a volume. Each makes a file of one name while it can't reach the other; then
//! one hears of the other, and shows both.
#![tactic(auto)]

mod fault;

ghost use Rattle.std.specs.Prelude.{◌-◌, ◌^◌, ◌<◌, IfOk, OnOk};
ghost use Rattle.ficus_durable_state.specs.Saved.{FitsImage};
ghost use Rattle.ficus_path.specs.Path.{IsNew};

use fault::Fault;
use ficus_durable_state::{BYTE_LIMIT, UPDATE_LIMIT};
use ficus_ids::{Kind, Members, Refusal};
use ficus_names::shown_text;
use ficus_path::{Path, read_path};
use ficus_replica::Replica;
use std::alloc::Global;
use std::io::Write;

fn main(rt: HostRuntime) -> Result<(), Fault> {
    let shown = tour(rt.alloc())?;
    Ok(rt.stdout().write_all(&shown)?)
}

// What office 1 shows once it has heard of office 2.
fn tour(alloc: Global) -> Result<Vec<u8>, Fault> {
    let both = met(alloc)?;
    plans(alloc, &both)
}

// Office 1 with a plan, once it has heard of office 2, which has made another.
fn met(alloc: Global) -> Result<Replica, Fault>
    ensures { IfOk result (λ met. FitsImage met.saved) }
{
    let one = with_plan(alloc, 1, b"slate\n")?;
    heard_of_second(alloc, &one)
}

fn heard_of_second(alloc: Global, one: &Replica) -> Result<Replica, Fault>
    requires { FitsImage one.now.saved }
    ensures { IfOk result (λ heard. FitsImage heard.saved) }
{
    let two = with_plan(alloc, 2, b"tiles\n")?;
    heard(alloc, one, &two)
}

// The office of this number, which has heard of nothing and made a plan of these bytes.
fn with_plan(alloc: Global, number: u8, bytes: &[u8]) -> Result<Replica, Fault>
    ensures { IfOk result (λ office. FitsImage office.saved) }
{
    let plan = new_path(alloc, b"/plan")?;
    let office = with_file(alloc, number, &plan)?;
    written(alloc, &office, &plan, bytes)
}

// The office of this number, which has made a file at this path.
fn with_file(alloc: Global, number: u8, path: &Path) -> Result<Replica, Fault>
    requires { IsNew path.now }
    ensures { IfOk result (λ office. FitsImage office.saved) }
{
    let office = office(alloc, number)?;
    made(alloc, &office, path)
}

fn office(alloc: Global, number: u8) -> Result<Replica, Fault>
    ensures { IfOk result (λ office. FitsImage office.saved) }
{
    let members = Members::new(2).ok_or(Fault::NoPeer)?;
    if !members.has(number) {
        return Err(Fault::NoPeer);
    }
    Ok(Replica::fresh(alloc, number, members, UPDATE_LIMIT, BYTE_LIMIT))
}

// The office with a file at this path.
fn made(alloc: Global, office: &Replica, path: &Path) -> Result<Replica, Fault>
    requires new { IsNew path.now }
    requires fits { FitsImage office.now.saved }
    ensures { IfOk result (λ made. FitsImage made.saved) }
{
    may_save(office)?;
    let next = office.make(alloc, path, Kind::Plain)?;
    Ok(next.replica)
}

// The office with these bytes in the file.
fn written(alloc: Global, office: &Replica, path: &Path, bytes: &[u8]) -> Result<Replica, Fault>
    requires { FitsImage office.now.saved }
    ensures { IfOk result (λ written. FitsImage written.saved) }
{
    may_save(office)?;
    let next = office.write(alloc, path, bytes)?;
    Ok(next.replica)
}

// The one office once it has heard of all that the other holds.
fn heard(alloc: Global, office: &Replica, other: &Replica) -> Result<Replica, Fault>
    requires office { FitsImage office.now.saved }
    requires other { FitsImage other.now.saved }
    ensures { IfOk result (λ heard. FitsImage heard.saved) }
{
    let asking = asking(office, other.saved.me)?;
    answered(alloc, &asking, other)
}

fn asking(office: &Replica, to: u8) -> Result<Replica, Fault>
    requires { FitsImage office.now.saved }
    ensures { IfOk result (λ asking. FitsImage asking.saved) }
{
    if office.saved.me == to || !office.saved.members.has(to) {
        return Err(Fault::NoPeer);
    }
    may_save(office)?;
    Ok(office.ask(to)?)
}

fn answered(alloc: Global, asking: &Replica, other: &Replica) -> Result<Replica, Fault>
    requires asking { FitsImage asking.now.saved }
    requires other { FitsImage other.now.saved }
    ensures { IfOk result (λ answered. FitsImage answered.saved) }
{
    may_save(asking)?;
    let theirs = &other.saved;
    if asking.saved.members != theirs.members {
        return Err(Fault::NoPeer);
    }
    let number = asking.saved.generation;
    Ok(asking.accept(alloc, theirs.me, number, &theirs.entries, &theirs.files)?)
}

fn may_save(office: &Replica) -> Result<(), Fault>
    ensures { OnOk result (office.now.saved.generation < 2 ^ 63 - 1) }
{
    if office.saved.generation >= 1_000_000 {
        return Err(Fault::Worn);
    }
    Ok(())
}

// What an office that has heard of both plans shows of them.
fn plans(alloc: Global, office: &Replica) -> Result<Vec<u8>, Fault>
    requires { FitsImage office.now.saved }
{
    let root = read_path(alloc, b"/")?;
    let theirs = read_path(alloc, b"/plan#2.1")?;
    Ok(shown(alloc, office, &root, &theirs)?)
}

// The names in a directory, each with a line of its own, and then the bytes of a file.
fn shown(alloc: Global, office: &Replica, directory: &Path, file: &Path) -> Result<Vec<u8>, Refusal>
    requires { FitsImage office.now.saved }
{
    let mut text = Vec::new(alloc);
    for line in &office.list(alloc, directory)? {
        text.extend_from_slice(&shown_text(alloc, &line.shown)?)?;
        text.push(b'\n')?;
    }
    text.extend_from_slice(&office.read(alloc, file)?)?;
    Ok(text)
}

// A path at which something may be made.
fn new_path(alloc: Global, bytes: &[u8]) -> Result<Path, Fault>
    ensures { IfOk result IsNew }
{
    let path = read_path(alloc, bytes)?;
    if !path.is_new() {
        return Err(Fault::NotNew);
    }
    Ok(path)
}
