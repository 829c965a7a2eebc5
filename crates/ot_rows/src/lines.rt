//! Lines of text files.
use ot_lines::{is_skipped, piece_len, trimmed};

/// Bytes, the length of a piece that ends in a newline, its text, and whether it is passed over.
const ROWS: &[(&[u8], Option<usize>, &[u8], bool)] = &[
    (b"", None, b"", true),
    (b"6", None, b"6", false),
    (b"6\nversion", Some(2), b"6", false),
    (b"\n6", Some(1), b"", true),
    (b"6\r\n", Some(3), b"6", false),
    (b"nil\r", None, b"nil", false),
    (b"a\r\r\n", Some(4), b"a\r", false),
    (b"b \r \n", Some(5), b"b \r", false),
    (b"\t version\t \r\n", Some(13), b"version", false),
    (b" \t\r\n", Some(4), b"", true),
    (b"c d\n", Some(4), b"c d", false),
    (b"  # no\n", Some(7), b"# no", true),
    (b"\"#\"\n", Some(4), b"\"#\"", false),
    (b"\x80\xff\x0b\n", Some(4), b"\x80\xff\x0b", false),
];

#[test]
fn cuts_and_trims(rt: HostRuntime) {
    for &(bytes, len, text, skipped) in ROWS {
        let found = piece_len(bytes, 0);
        assert!(rt; found == len);
        let piece = match found {
            Some(len) => &bytes[..len],
            None => bytes,
        };
        assert!(rt; trimmed(piece) == text);
        assert!(rt; is_skipped(text) == skipped);
    }
}
