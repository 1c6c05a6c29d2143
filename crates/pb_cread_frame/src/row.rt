ghost use Rattle.std.specs.Prelude.{◌≡◌};
ghost use Rattle.pb_cread_frame.specs.Rows.{is_line};

/// True where the line feed is the last byte, and the only one.
pub fn is_line(line: &[u8]) -> bool
    ensures { result ≡ is_line line.now }
{
    for (at, byte) in line.iter().enumerate() {
        if *byte == b'\n' {
            return line[at + 1..].is_empty();
        }
    }
    false
}
