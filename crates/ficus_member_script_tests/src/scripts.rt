// Which lines such a script has, and which is the first bad one.
use ficus_member_script::{MemberLine, read_member_script};
use ficus_script::ScriptFault;
use std::alloc::Global;

const SCRIPTS: [(&[u8], Result<usize, ScriptFault>); 22] = [
    (b"", Ok(0)),
    (b"# give 1\n\n#", Ok(0)),
    (
        b"1 mkdir /a\n1 write /a/b \"give 1\\n\"\n2 ls /\n3 collect\nask 1 2\nrestart 1",
        Ok(6),
    ),
    (b"take ask-1-2-1\n\ntake  x \ntake \xff\n1 tree\n", Ok(4)),
    (b"take", Err(ScriptFault::BadLine(1))),
    (b"take \n", Err(ScriptFault::BadLine(1))),
    (b" take a", Err(ScriptFault::BadLine(1))),
    (b"1 tree\ntaken a", Err(ScriptFault::BadLine(2))),
    (b"1 take a", Err(ScriptFault::BadLine(1))),
    (b"take a\ngive 1\n", Err(ScriptFault::BadLine(2))),
    (b"#\n\npull 1 2\n", Err(ScriptFault::BadLine(3))),
    (b"alike 1 2\n", Err(ScriptFault::BadLine(1))),
    (b"stop 1 0 0\n", Err(ScriptFault::BadLine(1))),
    (b"sweep ring\n", Err(ScriptFault::BadLine(1))),
    (b"1 why\n", Err(ScriptFault::BadLine(1))),
    (b"@1 1 tree\n", Err(ScriptFault::BadLine(1))),
    (b"@2 1 tree\n", Err(ScriptFault::BadLine(1))),
    (b"1 tree\r\n", Err(ScriptFault::BadLine(1))),
    (b"0 tree\n", Err(ScriptFault::BadLine(1))),
    (b"1 tree \n", Err(ScriptFault::BadLine(1))),
    (b"ask 1 2 3\n", Err(ScriptFault::BadLine(1))),
    (b"1 tree\n1 x\nsweep ring\n", Err(ScriptFault::BadLine(2))),
];

// How many lines the script has.
fn count(alloc: Global, script: &[u8]) -> Result<usize, ScriptFault> {
    Ok(read_member_script(alloc, script)?.len())
}

// Whether the script is one line, which takes the message of this name.
fn takes(alloc: Global, script: &[u8], name: &[u8]) -> bool {
    match read_member_script(alloc, script) {
        Ok(lines) => matches!(lines.as_slice(), [MemberLine::Take(found)] if found.items() == name),
        Err(_) => false,
    }
}

#[test]
fn scripts_are_read(rt: HostRuntime) {
    for (row, (script, read)) in SCRIPTS.iter().enumerate() {
        assert!(rt; count(rt.alloc(), script) == *read, "row {row}");
    }
}

#[test]
fn names_are_the_rest_of_the_line(rt: HostRuntime) {
    assert!(rt; takes(rt.alloc(), b"take a", b"a"));
    assert!(rt; takes(rt.alloc(), b"#\ntake  take a# \n", b" take a# "));
}
