ghost use Rattle.std.specs.Prelude.{◌≡◌, ◌≤◌, OnOk, OnErr};
ghost use Rattle.std.specs.Io.KnownBytes.{Appends};
ghost use Rattle.pb_io.specs.Faults.{Rose};
ghost use Rattle.pb_io.specs.Sinks.{AppendsFront};
ghost use Rattle.pb_cli_status.specs.Lines.{n_words, rank_line, rule_words, rule_line, told_line};

use crate::parts::write_parts;
use itoa::Buffer;
use pb_io::{OutFault, Sink, write_all};
use pb_text::{Name, Place};

/// Appends the status line of a broken rule: the rule, its place, and N and a rank where they are told. Takes no memory.
///
/// `WriteFault` comes only where the sink's count of faults rose in this call; then some first bytes were appended.
#[tactic(auto, using(crate::proofs::Fronts::front_first))]
pub fn write_broken<O: Sink>(
    out: &mut O,
    rule: u8,
    place: Place,
    n: Option<i64>,
    at: &Option<(Name, i64)>,
) -> Result<(), OutFault>
    ensures whole { OnOk result (Appends (O.taken out.old) (O.taken out.new) (rule_line rule place n at.now)) }
    ensures front { OnErr result (AppendsFront (O.taken out.old) (O.taken out.new) (rule_line rule place n at.now)) }
    ensures fault { OnErr result (Rose (O.faults out.old) (O.faults out.new)) }
    ensures later { O.faults out.old ≤ O.faults out.new }
{
    write_rule(out, rule, place)?;
    write_told(out, n, at)
}

/// Appends the rule and its place.
fn write_rule<O: Sink>(out: &mut O, rule: u8, place: Place) -> Result<(), OutFault>
    ensures whole { OnOk result (Appends (O.taken out.old) (O.taken out.new) (rule_words rule place)) }
    ensures front { OnErr result (AppendsFront (O.taken out.old) (O.taken out.new) (rule_words rule place)) }
    ensures fault { OnErr result (Rose (O.faults out.old) (O.faults out.new)) }
    ensures later { O.faults out.old ≤ O.faults out.new }
{
    let mut kind = Buffer::new();
    let mut line = Buffer::new();
    let mut col = Buffer::new();
    let kind = kind.format(rule).as_bytes();
    let line = line.format(place.line).as_bytes();
    let col = col.format(place.col).as_bytes();
    write_parts(out, &[b"pabble: rule ", kind, b" at ", line, b":", col])
}

/// Appends what is told of N and a rank, and ends the line.
#[tactic(auto, using(crate::proofs::Fronts::front_first))]
fn write_told<O: Sink>(
    out: &mut O,
    n: Option<i64>,
    at: &Option<(Name, i64)>,
) -> Result<(), OutFault>
    ensures whole { OnOk result (Appends (O.taken out.old) (O.taken out.new) (told_line n at.now)) }
    ensures front { OnErr result (AppendsFront (O.taken out.old) (O.taken out.new) (told_line n at.now)) }
    ensures fault { OnErr result (Rose (O.faults out.old) (O.faults out.new)) }
    ensures later { O.faults out.old ≤ O.faults out.new }
{
    write_n(out, n)?;
    write_rank(out, at)
}

/// Appends N, where it is told.
fn write_n<O: Sink>(out: &mut O, n: Option<i64>) -> Result<(), OutFault>
    ensures whole { OnOk result (Appends (O.taken out.old) (O.taken out.new) (n_words n)) }
    ensures front { OnErr result (AppendsFront (O.taken out.old) (O.taken out.new) (n_words n)) }
    ensures fault { OnErr result (Rose (O.faults out.old) (O.faults out.new)) }
    ensures later { O.faults out.old ≤ O.faults out.new }
{
    match n {
        None => Ok(()),
        Some(n) => {
            let mut buffer = Buffer::new();
            write_parts(out, &[b", N = ", buffer.format(n).as_bytes()])
        }
    }
}

/// Appends a rank, where it is told, and ends the line.
fn write_rank<O: Sink>(out: &mut O, at: &Option<(Name, i64)>) -> Result<(), OutFault>
    ensures whole { OnOk result (Appends (O.taken out.old) (O.taken out.new) (rank_line at.now)) }
    ensures front { OnErr result (AppendsFront (O.taken out.old) (O.taken out.new) (rank_line at.now)) }
    ensures fault { OnErr result (Rose (O.faults out.old) (O.faults out.new)) }
    ensures later { O.faults out.old ≤ O.faults out.new }
{
    match at {
        None => write_all(out, b"\n"),
        Some((role, index)) => {
            let mut buffer = Buffer::new();
            let index = buffer.format(*index).as_bytes();
            write_parts(out, &[b", ", role.bytes(), b"[", index, b"]\n"])
        }
    }
}
