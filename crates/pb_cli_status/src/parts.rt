ghost use Rattle.std.specs.Prelude.{OnOk, OnErr, ◌≤◌};
ghost use Rattle.std.specs.List.{flat_map};
ghost use Rattle.std.specs.Io.KnownBytes.{Appends};
ghost use Rattle.pb_io.specs.Faults.{Rose};
ghost use Rattle.pb_io.specs.Sinks.{AppendsFront};

use pb_io::{OutFault, Sink, write_all};

/// Appends the bytes of all parts to the sink. Takes no memory.
///
/// `WriteFault` comes only where the sink's count of faults rose in this call; then some first bytes were appended.
#[tactic(auto, using(crate::proofs::Fronts::appends_both, crate::proofs::Fronts::front_first, crate::proofs::Fronts::front_then))]
pub fn write_parts<O: Sink>(out: &mut O, parts: &[&[u8]]) -> Result<(), OutFault>
    ensures whole { OnOk result (Appends (O.taken out.old) (O.taken out.new) (flat_map (λ part. part.now) parts.now)) }
    ensures front { OnErr result (AppendsFront (O.taken out.old) (O.taken out.new) (flat_map (λ part. part.now) parts.now)) }
    ensures fault { OnErr result (Rose (O.faults out.old) (O.faults out.new)) }
    ensures later { O.faults out.old ≤ O.faults out.new }
{
    match parts.split_first() {
        None => Ok(()),
        Some((first, others)) => {
            write_all(out, first)?;
            write_parts(out, others)
        }
    }
}
