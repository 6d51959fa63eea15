// Which texts are a tag, and how it is written.
use ficus_tag::Tag;

const TEXTS: [(&[u8], Option<&[u8]>); 11] = [
    (
        b"00112233445566778899aabbccddeeff",
        Some(b"00112233445566778899aabbccddeeff"),
    ),
    (
        b"FEDCBA98765432100f1e2D3C4b5A6978",
        Some(b"fedcba98765432100f1e2d3c4b5a6978"),
    ),
    (
        b"00000000000000000000000000000000",
        Some(b"00000000000000000000000000000000"),
    ),
    (b"", None),
    (b"0011223344556677", None),
    (b"00112233445566778899aabbccddeef", None),
    (b"00112233445566778899aabbccddeeff0", None),
    (b"00112233445566778899aabbccddeeff\n", None),
    (b"00112233445566778899aabbccddeefg", None),
    (b" 0112233445566778899aabbccddeeff", None),
    (b"0x112233445566778899aabbccddeeff", None),
];

// Whether the text is read as the tag that is written so.
fn is_read_as(text: &[u8], written: Option<&[u8]>) -> bool {
    match (Tag::read(text), written) {
        (Some(tag), Some(written)) => tag.text().as_slice() == written,
        (None, None) => true,
        _ => false,
    }
}

#[test]
fn tags_are_read_and_written(rt: HostRuntime) {
    for (row, (text, written)) in TEXTS.iter().enumerate() {
        assert!(rt; is_read_as(text, *written), "row {row}");
    }
    assert!(rt; Tag::none().text().as_slice() == b"00000000000000000000000000000000".as_slice());
}
