//! The line of a simulation in which nobody can go on.

ghost use Rattle.std.specs.Prelude.{◌≤◌, OnOk, OnErr};
ghost use Rattle.std.specs.Io.KnownBytes.{Appends};
ghost use Rattle.pb_local.specs.Tree.{Program, program_of};
ghost use Rattle.pb_sim.specs.declared.standing.Cause.TheVariants as C;
ghost use Rattle.pb_io.specs.Faults.{Rose};
ghost use Rattle.pb_io.specs.Sinks.{AppendsFront};
ghost use Rattle.pb_cli_simulate.specs.Endings.{cause_words, rank_words, stuck_line};

use itoa::Buffer;
use pb_cli_status::write_parts;
use pb_io::{OutFault, Sink, write_all};
use pb_local::Local;
use pb_sim::Cause;

/// Appends the rank that is told.
fn write_rank<O: Sink>(out: &mut O, rank: u32) -> Result<(), OutFault>
    ensures whole { OnOk result (Appends (O.taken out.old) (O.taken out.new) (rank_words rank)) }
    ensures front { OnErr result (AppendsFront (O.taken out.old) (O.taken out.new) (rank_words rank)) }
    ensures fault { OnErr result (Rose (O.faults out.old) (O.faults out.new)) }
    ensures later { O.faults out.old ≤ O.faults out.new }
{
    let mut number = Buffer::new();
    let number = number.format(rank).as_bytes();
    write_parts(out, &[b"pabble: stuck, rank ", number, b" "])
}

fn write_receive<O: Sink>(out: &mut O, local: &Local, from: u32, label: u32) -> Result<(), OutFault>
    ensures whole { OnOk result (Appends (O.taken out.old) (O.taken out.new) (cause_words (program_of local.now) (C.Receive from label))) }
    ensures front { OnErr result (AppendsFront (O.taken out.old) (O.taken out.new) (cause_words (program_of local.now) (C.Receive from label))) }
    ensures fault { OnErr result (Rose (O.faults out.old) (O.faults out.new)) }
    ensures later { O.faults out.old ≤ O.faults out.new }
{
    let mut number = Buffer::new();
    let number = number.format(from).as_bytes();
    let name = local.label_name(label);
    write_parts(out, &[b"waits for ", name, b" from ", number, b"\n"])
}

fn write_probe<O: Sink>(out: &mut O, from: u32) -> Result<(), OutFault>
    ensures whole { (p : Program) → OnOk result (Appends (O.taken out.old) (O.taken out.new) (cause_words p (C.Probe from))) }
    ensures front { (p : Program) → OnErr result (AppendsFront (O.taken out.old) (O.taken out.new) (cause_words p (C.Probe from))) }
    ensures fault { OnErr result (Rose (O.faults out.old) (O.faults out.new)) }
    ensures later { O.faults out.old ≤ O.faults out.new }
{
    let mut number = Buffer::new();
    let number = number.format(from).as_bytes();
    write_parts(out, &[b"waits for a message from ", number, b"\n"])
}

fn write_taken<O: Sink>(out: &mut O, local: &Local, by: u32, label: u32) -> Result<(), OutFault>
    ensures whole { OnOk result (Appends (O.taken out.old) (O.taken out.new) (cause_words (program_of local.now) (C.Taken by label))) }
    ensures front { OnErr result (AppendsFront (O.taken out.old) (O.taken out.new) (cause_words (program_of local.now) (C.Taken by label))) }
    ensures fault { OnErr result (Rose (O.faults out.old) (O.faults out.new)) }
    ensures later { O.faults out.old ≤ O.faults out.new }
{
    let mut number = Buffer::new();
    let number = number.format(by).as_bytes();
    let name = local.label_name(label);
    write_parts(out, &[b"waits until ", number, b" takes ", name, b"\n"])
}

fn write_left<O: Sink>(out: &mut O, local: &Local, from: u32, label: u32) -> Result<(), OutFault>
    ensures whole { OnOk result (Appends (O.taken out.old) (O.taken out.new) (cause_words (program_of local.now) (C.Left from label))) }
    ensures front { OnErr result (AppendsFront (O.taken out.old) (O.taken out.new) (cause_words (program_of local.now) (C.Left from label))) }
    ensures fault { OnErr result (Rose (O.faults out.old) (O.faults out.new)) }
    ensures later { O.faults out.old ≤ O.faults out.new }
{
    let mut number = Buffer::new();
    let number = number.format(from).as_bytes();
    let name = local.label_name(label);
    write_parts(out, &[b"has ", name, b" from ", number, b" left over\n"])
}

/// Appends why it has no step, and ends the line.
fn write_cause<O: Sink>(out: &mut O, local: &Local, cause: Cause) -> Result<(), OutFault>
    ensures whole { OnOk result (Appends (O.taken out.old) (O.taken out.new) (cause_words (program_of local.now) cause)) }
    ensures front { OnErr result (AppendsFront (O.taken out.old) (O.taken out.new) (cause_words (program_of local.now) cause)) }
    ensures fault { OnErr result (Rose (O.faults out.old) (O.faults out.new)) }
    ensures later { O.faults out.old ≤ O.faults out.new }
{
    match cause {
        Cause::Receive { from, label } => write_receive(out, local, from, label),
        Cause::Probe { from } => write_probe(out, from),
        Cause::Taken { by, label } => write_taken(out, local, by, label),
        Cause::Collective => write_all(out, b"waits in a collective\n"),
        Cause::Lost => write_all(out, b"is lost\n"),
        Cause::Undefined => write_all(out, b"is undefined\n"),
        Cause::Left { from, label } => write_left(out, local, from, label),
    }
}

/// Appends the line that tells a rank and why it has no step, or what is left over.
///
/// `WriteFault` comes only where the sink's count of faults rose in this call; then some first bytes were appended.
pub fn write_stuck<O: Sink>(
    out: &mut O,
    local: &Local,
    rank: u32,
    cause: Cause,
) -> Result<(), OutFault>
    ensures whole { OnOk result (Appends (O.taken out.old) (O.taken out.new) (stuck_line (program_of local.now) rank cause)) }
    ensures front { OnErr result (AppendsFront (O.taken out.old) (O.taken out.new) (stuck_line (program_of local.now) rank cause)) }
    ensures fault { OnErr result (Rose (O.faults out.old) (O.faults out.new)) }
    ensures later { O.faults out.old ≤ O.faults out.new }
{
    match write_rank(out, rank) {
        Ok(()) => write_cause(out, local, cause),
        Err(fault) => Err(fault),
    }
}
