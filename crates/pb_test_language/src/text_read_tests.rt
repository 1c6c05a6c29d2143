use crate::rows::parts;
use pb_text_read::{number, strip};

#[test]
fn a_text_in_front_is_passed_over(rt: HostRuntime) {
    let line = b"seed 7".as_slice();
    assert!(rt; strip(b"seed ", line) == Some(b"7".as_slice()));
    assert!(rt; strip(b"", line) == Some(line));
    assert!(rt; strip(b"sad", line) == None);
    assert!(rt; strip(b"seed 70", line) == None);
}

/// Texts, and the number below 2^32 in front of a blank and an x.
const NARROW: &str = "12 x => 12
007 x => 7
4294967295 x => 4294967295
4294967296 x => none";

/// Texts, and the number below 2^64.
const WIDE: &str = "18446744073709551615 x => 18446744073709551615
18446744073709551616 x => none
 1 => none
 => none";

/// Whether this number is read, with a blank and an x behind it.
fn is_number(read: Option<(u64, &[u8])>, want: &str) -> bool {
    match read {
        Some((number, rest)) => rest == b" x".as_slice() && want.parse() == Ok(number),
        None => want == "none",
    }
}

#[test]
fn a_number_in_front_is_read(rt: HostRuntime) {
    for row in NARROW.lines() {
        let (text, want) = parts(row);
        assert!(rt;
            is_number(number(4_294_967_296, text.as_bytes()), want),
            "{row}"
        );
    }
    for row in WIDE.lines() {
        let (text, want) = parts(row);
        let read = number(18_446_744_073_709_551_616, text.as_bytes());
        assert!(rt; is_number(read, want), "{row}");
    }
}
