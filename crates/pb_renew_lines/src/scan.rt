//! The first line of a kind, in the order of a text.

ghost use Rattle.std.specs.Prelude.{◌≡◌, ◌<◌, ◌≤◌, ◌∷◌, ◌&&◌, nat_eq, not, length, take, drop};
ghost use Rattle.std.specs.List.{prefix_len};
ghost use Rattle.pb_ctree.specs.Bodies.{is_marker};
ghost use Rattle.pb_kernels.specs.Files.{first_len, lines};
ghost use Rattle.pb_kernels.specs.Marks.{are_blank};
ghost use Rattle.pb_text.specs.Lexemes.{is_blank};
ghost use Rattle.pb_renew_lines.specs.Lines.{behind, first_number, is_indented, is_sought};

/// What is looked for.
#[derive(Clone, Copy)]
pub enum Sought {
    /// A line that looks like a marker, but for the blanks in front of it.
    Indented,
    /// A line outside of bodies that is no marker, and isn't blank.
    Stray,
}

/// The number of the first line that is sought, from 1. Numbers stop at 4,294,967,295.
pub fn first_number(sought: Sought, bytes: &[u8]) -> Option<u32>
    ensures { result ≡ first_number sought bytes.now }
{
    let mut number: u32 = 1;
    let mut is_inside = false;
    let mut at = 0;
    while at < bytes.len() {
        let len = line_len(&bytes[at..]);
        let line = &bytes[at..at + len];
        if is_sought(sought, is_inside, line) {
            return Some(number);
        }
        is_inside = behind(is_inside, line);
        number = number.saturating_add(1);
        at += len;
    }
    None
}

/// True where a line is sought, which stands in a body or doesn't.
fn is_sought(sought: Sought, is_inside: bool, line: &[u8]) -> bool
    ensures { result ≡ is_sought sought is_inside line.now }
{
    match sought {
        Sought::Indented => is_indented(line),
        Sought::Stray => !is_inside && !is_marker(line) && !are_blank(line),
    }
}

/// Whether a body is open behind a line.
fn behind(is_inside: bool, line: &[u8]) -> bool
    ensures { result ≡ behind is_inside line.now }
{
    if is_marker(line) {
        !is_inside
    } else {
        is_inside
    }
}

fn is_marker(line: &[u8]) -> bool
    ensures { result ≡ is_marker line.now }
{
    line.starts_with(b"/*@")
}

fn is_indented(line: &[u8]) -> bool
    ensures { result ≡ is_indented line.now }
{
    let count = blank_len(line);
    count > 0 && is_marker(&line[count..])
}

/// How many blanks stand in front.
fn blank_len(line: &[u8]) -> usize
    ensures count { result ≡ prefix_len is_blank line.now }
    ensures within { result ≤ length line.now }
{
    line.iter().take_while(|byte| is_blank(**byte)).count()
}

fn are_blank(bytes: &[u8]) -> bool
    ensures { result ≡ are_blank bytes.now }
{
    bytes.iter().all(|byte| is_blank(*byte))
}

fn is_blank(byte: u8) -> bool
    ensures { result ≡ is_blank byte }
{
    byte == b' ' || byte == b'\t' || byte == b'\r' || byte == b'\n'
}

/// The number of bytes of the first line, with its line feed.
#[tactic(auto, using(pb_kernels::proofs::Lines::counted_first, pb_kernels::proofs::Lines::counted_some))]
fn line_len(bytes: &[u8]) -> usize
    requires { 0 < length bytes.now }
    ensures first { lines bytes.now ≡ take result bytes.now ∷ lines (drop result bytes.now) }
    ensures some { 0 < result }
    ensures within { result ≤ length bytes.now }
{
    first_len(bytes)
}

fn first_len(bytes: &[u8]) -> usize
    ensures { result ≡ first_len bytes.now }
{
    (before_break(bytes) + 1).min(bytes.len())
}

fn before_break(bytes: &[u8]) -> usize
    ensures count { result ≡ prefix_len (λ byte. not (nat_eq byte 10)) bytes.now }
    ensures within { result ≤ length bytes.now }
{
    bytes.iter().take_while(|byte| **byte != b'\n').count()
}
