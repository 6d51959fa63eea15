// What follows from a number, whole and by its length.
use ficus_generator::generate;
use ficus_ids::Members;

/// The script of a seed, over so many steps, for so many members.
#[derive(Drop)]
struct Row {
    members: u8,
    seed: u32,
    steps: u32,
    script: &'static str,
}

const ROWS: [Row; 4] = [
    Row {
        members: 2,
        seed: 1,
        steps: 0,
        script: "1 mkdir /d0\n1 mkdir /d1\n1 mkdir /d2\n1 mkdir /d3\npull 2 1\n",
    },
    Row {
        members: 2,
        seed: 1,
        steps: 3,
        script: "1 mkdir /d0\n1 mkdir /d1\n1 mkdir /d2\n1 mkdir /d3\npull 2 1\n\
            pull 1 2\n2 create /d3/f3 lines\npull 1 2\n",
    },
    Row {
        members: 3,
        seed: 2_147_483_647,
        steps: 4,
        script: "1 mkdir /d0\n1 mkdir /d1\n1 mkdir /d2\n1 mkdir /d3\npull 2 1\npull 3 1\n\
            pull 3 1\n1 write /d2/f2 \"s2\\n\"\n3 write /d0/f0 \"s3\\n\"\n3 write /d1/f1 \"s4\\n\"\n",
    },
    Row {
        members: 8,
        seed: 131,
        steps: 10,
        script: "1 mkdir /d0\n1 mkdir /d1\n1 mkdir /d2\n1 mkdir /d3\n\
            pull 2 1\npull 3 1\npull 4 1\npull 5 1\npull 6 1\npull 7 1\npull 8 1\n\
            3 create /d3/f3 lines\npull 1 2\n7 rm /d0/f0\n7 write /d2/f6 \"s4\\n\"\n7 mkdir /d0\n\
            3 resolve /d0/f0\n6 collect\n5 mv /d1/f5 /d2/f5\n3 write /d3/f3 \"s9\\n\"\npull 1 2\n",
    },
];

#[test]
fn follows_from_the_number(rt: HostRuntime) {
    for row in &ROWS {
        let members = Members::new(row.members).expect(&rt, "members");
        assert!(rt; row.seed <= 2_147_483_647 && row.steps <= 5000);
        let script = generate(rt.alloc(), row.seed, row.steps, members).expect(&rt, "script");
        assert!(rt; script.as_slice() == row.script.as_bytes());
    }
}

#[test]
fn is_as_long_as_another_program_makes_it(rt: HostRuntime) {
    let members = Members::new(8).expect(&rt, "members");
    let script = generate(rt.alloc(), 7, 5000, members).expect(&rt, "script");
    assert!(rt; script.len() == 80079);
}
