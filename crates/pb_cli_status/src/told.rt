//! Status lines that tell numbers.

ghost use Rattle.std.specs.Prelude.{◌≤◌, OnOk, OnErr};
ghost use Rattle.std.specs.Io.KnownBytes.{Appends};
ghost use Rattle.pb_io.specs.Faults.{Rose};
ghost use Rattle.pb_io.specs.Sinks.{AppendsFront};
ghost use Rattle.pb_cli_status.specs.Lines.{high_words, low_words, malformed_line, number_line, outside_line, ruling_line};

use crate::parts::write_parts;
use itoa::Buffer;
use pb_affine::NRange;
use pb_io::{OutFault, Sink, write_all};

/// Appends a line that ends with a number.
pub fn write_number<O: Sink>(out: &mut O, what: &[u8], n: u32) -> Result<(), OutFault>
    ensures whole { OnOk result (Appends (O.taken out.old) (O.taken out.new) (number_line what.now n)) }
    ensures front { OnErr result (AppendsFront (O.taken out.old) (O.taken out.new) (number_line what.now n)) }
    ensures fault { OnErr result (Rose (O.faults out.old) (O.faults out.new)) }
    ensures later { O.faults out.old ≤ O.faults out.new }
{
    let mut number = Buffer::new();
    let number = number.format(n).as_bytes();
    write_parts(out, &[what, number, b"\n"])
}

/// Appends the line of a rank that departs from a protocol, first at a line of its log.
pub fn write_ruling<O: Sink>(out: &mut O, line: u32, rank: u32, what: &[u8]) -> Result<(), OutFault>
    ensures whole { OnOk result (Appends (O.taken out.old) (O.taken out.new) (ruling_line line rank what.now)) }
    ensures front { OnErr result (AppendsFront (O.taken out.old) (O.taken out.new) (ruling_line line rank what.now)) }
    ensures fault { OnErr result (Rose (O.faults out.old) (O.faults out.new)) }
    ensures later { O.faults out.old ≤ O.faults out.new }
{
    let mut line_number = Buffer::new();
    let mut rank_number = Buffer::new();
    let line = line_number.format(line).as_bytes();
    let rank = rank_number.format(rank).as_bytes();
    write_parts(out, &[b"pabble: log line ", line, b", rank ", rank, what])
}

/// Appends the line of a log that is malformed at a line.
pub fn write_malformed<O: Sink>(out: &mut O, line: u32) -> Result<(), OutFault>
    ensures whole { OnOk result (Appends (O.taken out.old) (O.taken out.new) (malformed_line line)) }
    ensures front { OnErr result (AppendsFront (O.taken out.old) (O.taken out.new) (malformed_line line)) }
    ensures fault { OnErr result (Rose (O.faults out.old) (O.faults out.new)) }
    ensures later { O.faults out.old ≤ O.faults out.new }
{
    let mut number = Buffer::new();
    let number = number.format(line).as_bytes();
    write_parts(out, &[b"pabble: log line ", number, b" is malformed\n"])
}

/// Appends the upper end of a range, and the line's end.
fn write_high<O: Sink>(out: &mut O, high: Option<u32>) -> Result<(), OutFault>
    ensures whole { OnOk result (Appends (O.taken out.old) (O.taken out.new) (high_words high)) }
    ensures front { OnErr result (AppendsFront (O.taken out.old) (O.taken out.new) (high_words high)) }
    ensures fault { OnErr result (Rose (O.faults out.old) (O.faults out.new)) }
    ensures later { O.faults out.old ≤ O.faults out.new }
{
    match high {
        None => write_all(out, b"..max\n"),
        Some(high) => {
            let mut number = Buffer::new();
            write_parts(out, &[b"..", number.format(high).as_bytes(), b"\n"])
        }
    }
}

/// Appends N and the lower end of a range.
fn write_low<O: Sink>(out: &mut O, n: u32, low: u32) -> Result<(), OutFault>
    ensures whole { OnOk result (Appends (O.taken out.old) (O.taken out.new) (low_words n low)) }
    ensures front { OnErr result (AppendsFront (O.taken out.old) (O.taken out.new) (low_words n low)) }
    ensures fault { OnErr result (Rose (O.faults out.old) (O.faults out.new)) }
    ensures later { O.faults out.old ≤ O.faults out.new }
{
    let mut number = Buffer::new();
    let mut lower = Buffer::new();
    let number = number.format(n).as_bytes();
    let lower = lower.format(low).as_bytes();
    write_parts(out, &[b"pabble: N = ", number, b" outside ", lower])
}

/// Appends the line of an N outside a range.
#[tactic(auto, using(crate::proofs::Fronts::front_first))]
pub fn write_outside<O: Sink>(out: &mut O, n: u32, range: NRange) -> Result<(), OutFault>
    ensures whole { OnOk result (Appends (O.taken out.old) (O.taken out.new) (outside_line n range)) }
    ensures front { OnErr result (AppendsFront (O.taken out.old) (O.taken out.new) (outside_line n range)) }
    ensures fault { OnErr result (Rose (O.faults out.old) (O.faults out.new)) }
    ensures later { O.faults out.old ≤ O.faults out.new }
{
    write_low(out, n, range.low)?;
    write_high(out, range.high)
}
