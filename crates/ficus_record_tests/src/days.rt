use crate::steps::{fresh, plays};
use ficus_ids::Refusal;
use std::alloc::Global;
use std::test::Fail;

// Days of two replicas, in which each operation, asks, accepts and collections come.
const DAYS: &[&str] = &[
    "1 mkdir /d\n1 create /d/f plain\n1 write /d/f \"one\"\n1 ln /d/f /g\n1 mv /d/f /h\n1 rm /g\n",
    // What is removed here is written there, and gets a name again.
    "1 create /f plain\npull 2 1\n1 rm /f\n2 write /f \"kept\"\npull 1 2\n1 adopt ~1.1 /back\n",
    // Or it is given up.
    "1 create /f plain\npull 2 1\n1 rm /f\n2 write /f \"kept\"\npull 1 2\n1 discard ~1.1\npull 2 1\n",
    // Both write, and the conflicts end by hand and by the resolver.
    "1 create /f plain\n1 create /m max\npull 2 1\n1 write /f \"a\"\n1 write /m \"3\"\n2 write /f \"b\"\n\
    2 write /m \"4\"\npull 1 2\n1 settle /f \"c\"\n1 resolve /m\n",
    // What all know to be removed is collected.
    "1 mkdir /d\n1 rm /d\npull 2 1\npull 1 2\npull 2 1\npull 1 2\n1 collect\n",
];

// Two replicas play the day. Each step applies its record, or fails.
fn passes(alloc: Global, day: &str) -> Result<(), Refusal> {
    let mut one = fresh(alloc, 1, 40, 40)?;
    let mut two = fresh(alloc, 2, 40, 40)?;
    plays(alloc, &mut one, &mut two, day)
}

#[test]
fn records_of_days_are_applied(rt: HostRuntime) -> Result<(), Fail> {
    for (place, day) in DAYS.iter().enumerate() {
        let passed = passes(rt.alloc(), day);
        assert!(rt; passed.is_ok(), "{place} {passed:?}");
    }
    Ok(())
}
