//! Writing what a command answers.

ghost use Rattle.std.specs.Prelude.{◌≡◌, IsErrOf};
ghost use Rattle.pb_io.specs.Faults.{Rose};
ghost use Rattle.pb_cli_status.specs.Written.{Says};
ghost use Rattle.pb_cli_file.specs.Files.{Answers};

use crate::answer::Answer;
use pb_cli_status::{Refusal, Status, refuse};
use pb_io::{OutFault, Sink, write_all};

/// Writes an answer, or the status line of a refusal, and tells the status.
pub fn say<O: Sink>(out: &mut O, answer: Result<Answer, Refusal>) -> Status
    ensures said { Answers answer (λ status text. Says status text result (O.taken out.old) (O.taken out.new)) }
    ensures read_fault { result ≡ Status.ReadFault → IsErrOf answer Refusal.ReadFault }
    ensures write_fault { result ≡ Status.WriteFault → Rose (O.faults out.old) (O.faults out.new) }
{
    match answer {
        Ok(answer) => match write_all(out, answer.bytes()) {
            Ok(()) => Status::Done,
            Err(OutFault::WriteFault) => Status::WriteFault,
        },
        Err(refusal) => refuse(out, refusal),
    }
}
