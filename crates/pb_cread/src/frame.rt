ghost use Rattle.std.specs.Prelude.{◌≡◌, ◌<◌, ℕ, List, length, true, false, IfErr, IfOk, OnOk};
ghost use Rattle.pb_cread_frame.specs.Reading.{is_done};
ghost use Rattle.pb_cread_frame.specs.Views.{state_of, IsReader};
ghost use Rattle.pb_cread.specs.Faults.{IsFault};
ghost use Rattle.pb_cread.specs.Reached.{InFrame};

use crate::fault::TextFault;
use crate::lines::Lines;
use pb_cread_frame::FrameReader;
use std::alloc::Global;

/// Reads the lines before main's statements, from the first line on.
#[tactic(auto, using(crate::proofs::Faulted::frame_starts))]
pub(crate) fn read_frame(alloc: Global, lines: &mut Lines) -> Result<FrameReader, TextFault>
    requires first { lines.old.line ≡ 1 }
    ensures read { IfOk result (λ reader. InFrame lines.old.rest.now lines.new.rest.now lines.new.line (state_of reader)) }
    ensures done { IfOk result (λ reader. is_done (state_of reader) ≡ true) }
    ensures fault { IfErr result (IsFault lines.old.rest.now) }
{
    let mut reader = FrameReader::new(alloc)?;
    while !reader.is_done() {
        match take_row(alloc, lines, &mut reader) {
            Ok(()) => {}
            Err(fault) => return Err(fault),
        }
    }
    Ok(reader)
}

/// Takes the next line, which must be there and go on.
#[tactic(auto, using(crate::proofs::Feeds::shorter))]
fn take_row(alloc: Global, lines: &mut Lines, reader: &mut FrameReader) -> Result<(), TextFault>
    requires left { is_done (state_of reader.old) ≡ false }
    requires reader { IsReader reader.old }
    ensures read { IfOk result (λ _. (text : List ℕ) → InFrame text lines.old.rest.now lines.old.line (state_of reader.old) → InFrame text lines.new.rest.now lines.new.line (state_of reader.new)) }
    ensures reader { OnOk result (IsReader reader.new) }
    ensures shorter { OnOk result (length lines.new.rest.now < length lines.old.rest.now) }
    ensures fault { IfErr result (λ e. (text : List ℕ) → InFrame text lines.old.rest.now lines.old.line (state_of reader.old) → IsFault text e) }
{
    let place = lines.place();
    let Some(line) = lines.take() else {
        return Err(TextFault::Unexpected(place));
    };
    if !reader.take(alloc, line)? {
        return Err(TextFault::Unexpected(place));
    }
    Ok(())
}
