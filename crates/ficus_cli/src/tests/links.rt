// The program's loop over a link that fails at each call in turn, over one that is nearly full, and over such that give
// other bytes than were posted.
ghost use Rattle.std.specs.Prelude.{◌≡◌, []};
ghost use Rattle.ficus_ids.specs.Members.{IsCount};
ghost use Rattle.ficus_world.specs.Disks.{IsBacked};

use crate::tests::altered_link::{Alteration, AlteredLink};
use crate::tests::disks::pairs;
use ficus_disk::{Disk, FailDisk, Pair};
use ficus_ids::Members;
use ficus_journal::Journal;
use ficus_keeper::Keep;
use ficus_outside::{FailLink, Link, MemLink, MemSink};
use ficus_script::read_script;
use ficus_top::serve;
use ficus_world::{DEFAULT_BYTES, DEFAULT_IDS, World};
use std::alloc::Global;
use std::test::Fail;

// Whether the world answers the script so.
fn serves_so<P: Keep + Drop, L: Link + Drop, D: Disk>(
    alloc: Global,
    world: &mut World<P, L>,
    disks: &mut Vec<Pair<D>>,
    script: &str,
    answers: &str,
) -> Result<bool, Fail>
    requires backed { IsBacked P.Keep D.Disk world.old disks.old.items }
{
    let commands = read_script(alloc, script.as_bytes())?;
    let mut output = MemSink::new(alloc, Vec::new(alloc))?;
    if commands.len() > 10 || world.history().len() >= 100 {
        return Err("more than a test serves".into());
    }
    let status = serve(alloc, world, disks, &commands, &mut output);
    Ok(status.code == 0 && output.written() == answers.as_bytes())
}

// Whether two members, over this link, answer the script so.
fn answer_so<L: Link + Drop>(
    alloc: Global,
    link: L,
    script: &str,
    answers: &str,
) -> Result<bool, Fail>
    requires { L.posts link ≡ [] }
{
    let members = Members::new(2).ok_or("two members")?;
    let mut disks = made(alloc, members)?;
    if disks.len() != 8 {
        return Err("eight pairs of disks".into());
    }
    let opened = World::<Journal, L>::open(alloc, &mut disks, link);
    let mut world = opened.map_err(|_| "no world was opened")?;
    if disks.len() != 8 {
        return Err("eight pairs of disks".into());
    }
    serves_so(alloc, &mut world, &mut disks, script, answers)
}

// The disks of a fresh volume.
fn made(alloc: Global, members: Members) -> Result<Vec<Pair<FailDisk>>, Fail>
    requires { IsCount members }
{
    let mut disks = pairs(alloc)?;
    if disks.len() != 8 {
        return Err("eight pairs of disks".into());
    }
    let is_made = World::<Journal, MemLink>::make(
        alloc,
        &mut disks,
        members,
        DEFAULT_IDS,
        DEFAULT_BYTES,
    );
    is_made.map_err(|_| "no volume was made")?;
    Ok(disks)
}

// Scripts with their answers over a link that counts so many bytes as posted already. A message that asks has 12.
const NEARLY_FULL: &[(u64, &str, &str)] = &[
    (
        1_073_741_812,
        "ask 1 2\ngive 1\nask 1 2\npull 2 1\n",
        "ok 1\nno linkfull\nno linkfull\nno linkfull\n",
    ),
    (
        1_073_741_813,
        "ask 1 2\n1 mkdir /a\n",
        "no linkfull\nok 1.1\n",
    ),
];

#[test]
fn a_link_takes_what_fits_and_no_more(rt: HostRuntime) -> Result<(), Fail> {
    for &(total, script, answers) in NEARLY_FULL {
        let link = MemLink::after(rt.alloc(), total);
        let so = answer_so(rt.alloc(), link, script, answers)?;
        assert!(rt; so, "{total} {script:?}");
    }
    Ok(())
}

const PULLED: &str = "pull 1 2\npull 1 2\n";

const ASKED: &str = "ask 1 2\ngive 1\ngive 1\ngive 2\n";

// Which call of the link fails, a script, and its answers: what failed is done when it is asked for once more, but an
// ask that wasn't posted has no message to give. A pull makes four calls.
const FAILING: &[(u32, &str, &str)] = &[
    (1, ASKED, "no link\nno nomail\nno nomail\nno nomail\n"),
    (2, ASKED, "ok 1\nno link\nok 2\nok\n"),
    (3, ASKED, "ok 1\nno link\nok 2\nok\n"),
    (4, ASKED, "ok 1\nok 2\nno link\nok\n"),
    (6, ASKED, "ok 1\nok 2\nok 3\nno link\n"),
    (1, PULLED, "no link\nok\n"),
    (2, PULLED, "no link\nok\n"),
    (3, PULLED, "no link\nok\n"),
    (4, PULLED, "no link\nok\n"),
    (5, "pull 1 2\n", "ok\n"),
];

#[test]
fn a_link_fails_at_each_call_in_turn(rt: HostRuntime) -> Result<(), Fail> {
    for &(call, script, answers) in FAILING {
        let link = FailLink::new(rt.alloc(), [call].to_vec(rt.alloc())?);
        let so = answer_so(rt.alloc(), link, script, answers)?;
        assert!(rt; so, "{call} {script:?}");
    }
    Ok(())
}

const AS_BEFORE: &str =
    "ask 1 2\n1 mkdir /a\n2 mkdir /b\ngive 1\npull 2 1\n1 tree\n2 tree\nask 1 2\n";

const REFUSED: &str =
    "ok 1\nok 1.1\nok 2.1\nno badmessage\nno badmessage\nok 1\n0.0 a 1.1 dir\nok 1\n0.0 b 2.1 dir\nok 3\n";

const TAKEN: &str = "ok 1\nok\nok 1\n0.0 b 2.1 dir\nok 0\n";

// Bytes that are given whatever was posted, a script with its answers, and what the bytes are.
const GIVEN: &[(&[u8], &str, &str, &str)] = &[
    (
        b"\x03\x01\x01\x02\0\0\0\0\0\0\0\x01",
        AS_BEFORE,
        REFUSED,
        "an ask of version 3",
    ),
    (
        b"\x01\x01\x01\x02\0\0\0\0\0\0\0\x01",
        AS_BEFORE,
        REFUSED,
        "an ask of version 1",
    ),
    (
        b"\x02\x01\x01\x01\0\0\0\0\0\0\0\x01",
        AS_BEFORE,
        REFUSED,
        "an ask to its sender",
    ),
    (
        b"\x02\x01\x01\x03\0\0\0\0\0\0\0\x01",
        AS_BEFORE,
        REFUSED,
        "an ask to no member",
    ),
    (
        b"\x02\x01\x01\x02\0\0\0\0\0\0\0\x01\0",
        AS_BEFORE,
        REFUSED,
        "an ask with a byte more",
    ),
    (
        b"\x02\x03\x02\x01\0\0\0\0\0\0\0\x01\0\0\0\0\0\0\0\0\0\0\0\x01\0\0\0\0",
        AS_BEFORE,
        REFUSED,
        "a piece without bytes",
    ),
    (
        b"\x02\x03\x02\x01\0\0\0\0\0\0\0\x01\0\0\0\0\0\0\0\0\0\0\0\x01\0\0\0\0\0\0\0\0\0\0\0",
        AS_BEFORE,
        REFUSED,
        "a piece whose bytes are no tables",
    ),
    (
        b"\x02\x03\x02\x01\0\0\0\0\0\0\0\x01\0\0\0\0\0\0\0\x02\0\0\0\x01\0\0\0\0\0\0\0\x01\x02\0\0\0\x01\
        \0\0\0\0\0\x01b\x02\0\0\0\x01\0\0\0\0\x01\x02\0\0\0\x01\0\0\0\0\0\0\0\0\0\0",
        "ask 1 2\ngive 1\n1 tree\n2 tree\n",
        TAKEN,
        "a piece with a directory, which is the whole answer",
    ),
];

#[test]
fn what_the_link_gives_is_what_is_read(rt: HostRuntime) -> Result<(), Fail> {
    for &(bytes, script, answers, what) in GIVEN {
        let link = AlteredLink::new(rt.alloc(), Alteration::Whole(bytes));
        let so = answer_so(rt.alloc(), link, script, answers)?;
        assert!(rt; so, "{what}");
    }
    Ok(())
}

// A script in which the first member's tables make two pieces.
fn with_two_pieces(alloc: Global, script: &str) -> Result<String, Fail> {
    let mut whole = String::new(alloc);
    whole.push_str("1 create /f plain\n1 write /f \"")?;
    for _ in 0..5_000 {
        whole.push('a')?;
    }
    whole.push_str("\"\n")?;
    whole.push_str(script)?;
    Ok(whole)
}

// A call of the link that fails as an answer is posted, a script, and its answers: the pieces that were posted before
// it are given as ever, and what is missing is of a further answer to the same ask.
const CUT_OFF: &[(u32, &str, &str)] = &[
    (
        3,
        "ask 2 1\ngive 1\ngive 2\ngive 1\ngive 2\ngive 3\n2 ls /\n",
        "ok 1.1\nok\nok 1\nno link\nno nomail\nok 2 to 3\nok 1 of 2\nok\nok 1\nf 1.1 plain\n",
    ),
    (
        4,
        "ask 2 1\ngive 1\ngive 2\ngive 3\ngive 1\ngive 4\n2 ls /\n",
        "ok 1.1\nok\nok 1\nno link\nok 1 of 2\nno nomail\nok 3 to 4\nok\nok 1\nf 1.1 plain\n",
    ),
    (
        4,
        "pull 2 1\ngive 2\ngive 1\ngive 3\ngive 4\n2 ls /\n",
        "ok 1.1\nok\nno link\nok 1 of 2\nok 3 to 4\nok 1 of 2\nok\nok 1\nf 1.1 plain\n",
    ),
];

#[test]
fn a_further_answer_fills_the_gap(rt: HostRuntime) -> Result<(), Fail> {
    for &(call, script, answers) in CUT_OFF {
        let link = FailLink::new(rt.alloc(), [call].to_vec(rt.alloc())?);
        let whole = with_two_pieces(rt.alloc(), script)?;
        let so = answer_so(rt.alloc(), link, &whole, answers)?;
        assert!(rt; so, "{call} {script:?}");
    }
    Ok(())
}

// Where a byte of the first piece is changed, how a give of it is refused, and what the byte is of.
const ALTERED: &[(usize, u8, &str, &str)] = &[
    (0, 1, "badmessage", "the version"),
    (11, 9, "stale", "the number of the ask"),
    (19, 9, "mixed", "the state"),
    (23, 3, "badmessage", "the number of pieces"),
    (28, 255, "badmessage", "the tables"),
];

// The second piece is taken before the altered one, and is held still behind it.
#[test]
fn an_altered_piece_is_refused(rt: HostRuntime) -> Result<(), Fail> {
    let script = "ask 2 1\ngive 1\ngive 3\ngive 2\ngive 3\ngive 1\ngive 4\n2 ls /\n";
    for &(place, byte, refusal, what) in ALTERED {
        let change = Alteration::Byte {
            number: 2,
            place,
            byte,
        };
        let link = AlteredLink::new(rt.alloc(), change);
        let whole = with_two_pieces(rt.alloc(), script)?;
        let answers = format!(in rt.alloc();
            "ok 1.1\nok\nok 1\nok 2 to 3\nok 1 of 2\nno {refusal}\nok 1 of 2\nok 4 to 5\nok\nok 1\nf 1.1 plain\n"
        )?;
        let so = answer_so(rt.alloc(), link, &whole, &answers)?;
        assert!(rt; so, "{what}");
    }
    Ok(())
}
