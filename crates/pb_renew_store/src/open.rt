//! Open files, read and written piece by piece. A call that a signal interrupts is made again.

ghost use Rattle.std.specs.Prelude.{◌≡◌, IfOk, IfSome, nat_eq};
ghost use Rattle.std.specs.Cmp.Lexicographic.{pointwise};
ghost use Rattle.std.specs.Io.{ReadsAtMost};
ghost use Rattle.std.specs.Io.KnownBytes.{ReadConsumes, WriteAppends};
ghost use Rattle.pb_io.specs.Sinks.{IsCountOf};

use std::io::{self, ErrorKind, Read, Write};

/// How many bytes are read at a time.
const PIECE: usize = 4096;

/// How often a call is made that signals interrupt.
const TURNS: u32 = 1_000_000;

/// Writes some first bytes of the piece, and gives their number: at least one where the piece has any. An error has written
/// nothing that the file tells of.
pub fn write_some<W: Write>(file: &mut W, piece: &[u8]) -> io::Result<usize>
    ensures count { IfOk result (IsCountOf piece.now) }
    ensures bytes { WriteAppends (W.contents file.old) (W.contents file.new) result piece.now }
{
    if piece.is_empty() {
        return Ok(0);
    }
    for _ in 0..TURNS {
        match file.write(piece) {
            Ok(count) if count > 0 => return Ok(count),
            Ok(_) => return Err(io::Error::from(ErrorKind::WriteZero)),
            Err(error) if error.kind() == ErrorKind::Interrupted => {}
            Err(error) => return Err(error),
        }
    }
    Err(io::Error::from(ErrorKind::Interrupted))
}

/// Reads the next bytes into the front of the buffer, and gives their number: 0 only at the end, or where the buffer is empty.
fn read_some<F: Read>(file: &mut F, buf: &mut [u8]) -> io::Result<usize>
    ensures count { ReadsAtMost result buf.new }
    ensures bytes { ReadConsumes (F.remaining file.old) (F.remaining file.new) result buf.new }
{
    for _ in 0..TURNS {
        match file.read(buf) {
            Ok(count) => return Ok(count),
            Err(error) if error.kind() == ErrorKind::Interrupted => {}
            Err(error) => return Err(error),
        }
    }
    Err(io::Error::from(ErrorKind::Interrupted))
}

/// True where exactly these bytes are left to be read. No more of them are held than a piece.
pub fn has_exactly<F: Read>(file: &mut F, bytes: &[u8]) -> io::Result<bool>
    ensures { IfOk result (λ it. IfSome (F.remaining file.old) (λ left. it ≡ pointwise nat_eq left bytes.now)) }
{
    let mut piece = [0u8; PIECE];
    let mut done = 0;
    loop {
        let count = read_some(file, &mut piece)?;
        if count == 0 {
            return Ok(bytes[done..].is_empty());
        }
        if !bytes[done..].starts_with(&piece[..count]) {
            return Ok(false);
        }
        done += count;
    }
}
