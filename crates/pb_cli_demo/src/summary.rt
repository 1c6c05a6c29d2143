//! The lines of a summary.

ghost use Rattle.std.specs.Prelude.{◌≡◌, ◌≤◌, OnOk, OnErr};
ghost use Rattle.std.specs.Io.KnownBytes.{Appends};
ghost use Rattle.pb_io.specs.Faults.{Rose};
ghost use Rattle.pb_io.specs.Sinks.{AppendsFront};
ghost use Rattle.pb_cli_status.specs.Written.{Says};
ghost use Rattle.pb_cli_status.specs.declared.status.Status.TheVariants as S;
ghost use Rattle.pb_cli_demo.specs.Demo.{summary};

use itoa::Buffer;
use pb_cli_status::{Status, write_parts};
use pb_io::{OutFault, Sink};
use pb_sim::Counts;

/// Appends the number of statements, and the counts, a line for each. Takes no memory.
///
/// `WriteFault` comes only where the sink's count of faults rose in this call; then some first bytes were appended.
fn write_summary<O: Sink>(out: &mut O, count: u32, counts: &Counts) -> Result<(), OutFault>
    ensures whole { OnOk result (Appends (O.taken out.old) (O.taken out.new) (summary count counts.now)) }
    ensures front { OnErr result (AppendsFront (O.taken out.old) (O.taken out.new) (summary count counts.now)) }
    ensures fault { OnErr result (Rose (O.faults out.old) (O.faults out.new)) }
    ensures later { O.faults out.old ≤ O.faults out.new }
{
    let mut statements = Buffer::new();
    let mut sends = Buffer::new();
    let mut receives = Buffer::new();
    let mut runs = Buffer::new();
    let mut enters = Buffer::new();
    let mut leaves = Buffer::new();
    let mut words = Buffer::new();
    let statements = statements.format(count).as_bytes();
    let sends = sends.format(counts.sends).as_bytes();
    let receives = receives.format(counts.receives).as_bytes();
    let runs = runs.format(counts.runs).as_bytes();
    let enters = enters.format(counts.enters).as_bytes();
    let leaves = leaves.format(counts.leaves).as_bytes();
    let words = words.format(counts.words).as_bytes();
    write_parts(
        out,
        &[
            b"demo ",
            statements,
            b"\nsends ",
            sends,
            b"\nreceives ",
            receives,
            b"\nruns ",
            runs,
            b"\nenters ",
            enters,
            b"\nleaves ",
            leaves,
            b"\nwords ",
            words,
            b"\n",
        ],
    )
}

/// Writes the summary, and tells that all is done. Takes no memory.
pub fn tell<O: Sink>(out: &mut O, count: u32, counts: &Counts) -> Status
    ensures said { Says S.Done (summary count counts.now) result (O.taken out.old) (O.taken out.new) }
    ensures read { result ≡ S.ReadFault → ⊥ }
    ensures fault { result ≡ S.WriteFault → Rose (O.faults out.old) (O.faults out.new) }
    ensures later { O.faults out.old ≤ O.faults out.new }
{
    match write_summary(out, count, counts) {
        Ok(()) => Status::Done,
        Err(OutFault::WriteFault) => Status::WriteFault,
    }
}
