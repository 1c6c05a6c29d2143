ghost use Rattle.std.specs.Prelude.{◌≡◌, ◌∷◌, ◌++◌, ℕ, List, [], IfErr, IfOk};
ghost use Rattle.pb_local.specs.Tree.{Code, Program, codes_of};
ghost use Rattle.pb_cread_frame.specs.Reading.{Read, same_line};
ghost use Rattle.pb_cread.specs.Faults.{IsFault};
ghost use Rattle.pb_cread.specs.Reached.{InEnd, IsWhole, brace_text, finalize, last_texts, return_text, with_body};

use crate::fault::TextFault;
use crate::lines::Lines;

/// True for the line behind the statements.
pub(crate) fn is_finalize(line: &[u8]) -> bool
    ensures { result ≡ same_line finalize line.now }
{
    b"  MPI_Finalize();\n".as_slice() == line
}

/// Takes a line that must come next.
#[tactic(auto, using(crate::proofs::Ended::end_goes, crate::proofs::Ended::end_stops, crate::proofs::Ended::end_early))]
fn expect(lines: &mut Lines, text: &[u8]) -> Result<(), TextFault>
    ensures read { IfOk result (λ _. (bytes : List ℕ) (r : Read) (p : Program) (done : List Code) (last left : List (List ℕ)) → InEnd bytes lines.old.rest.now lines.old.line r p done last (text.now ∷ left) → InEnd bytes lines.new.rest.now lines.new.line r p done (last ++ text.now ∷ []) left) }
    ensures fault { IfErr result (λ e. (bytes : List ℕ) (r : Read) (p : Program) (done : List Code) (last left : List (List ℕ)) → InEnd bytes lines.old.rest.now lines.old.line r p done last (text.now ∷ left) → IsFault bytes e) }
{
    let place = lines.place();
    match lines.take() {
        None => Err(TextFault::Unexpected(place)),
        Some(line) => {
            if text == line {
                Ok(())
            } else {
                Err(TextFault::Unexpected(place))
            }
        }
    }
}

/// The end of the text must come next.
#[tactic(auto, using(crate::proofs::Ended::end_exceeded, crate::proofs::Ended::end_whole))]
fn end(lines: &Lines) -> Result<(), TextFault>
    ensures read { IfOk result (λ _. (bytes : List ℕ) (r : Read) (p : Program) (done : List Code) → InEnd bytes lines.now.rest.now lines.now.line r p done last_texts [] → IsWhole bytes r (with_body p (codes_of done))) }
    ensures fault { IfErr result (λ e. (bytes : List ℕ) (r : Read) (p : Program) (done : List Code) → InEnd bytes lines.now.rest.now lines.now.line r p done last_texts [] → IsFault bytes e) }
{
    if lines.is_empty() {
        Ok(())
    } else {
        Err(TextFault::Unexpected(lines.place()))
    }
}

/// Reads the last line of main, and the end of the text.
fn read_brace(lines: &mut Lines) -> Result<(), TextFault>
    ensures read { IfOk result (λ _. (bytes : List ℕ) (r : Read) (p : Program) (done : List Code) → InEnd bytes lines.old.rest.now lines.old.line r p done (return_text ∷ []) (brace_text ∷ []) → IsWhole bytes r (with_body p (codes_of done))) }
    ensures fault { IfErr result (λ e. (bytes : List ℕ) (r : Read) (p : Program) (done : List Code) → InEnd bytes lines.old.rest.now lines.old.line r p done (return_text ∷ []) (brace_text ∷ []) → IsFault bytes e) }
{
    match expect(lines, b"}\n") {
        Ok(()) => end(lines),
        Err(fault) => Err(fault),
    }
}

/// Reads the last lines of main, and the end of the text.
pub(crate) fn read_ending(lines: &mut Lines) -> Result<(), TextFault>
    ensures read { IfOk result (λ _. (bytes : List ℕ) (r : Read) (p : Program) (done : List Code) → InEnd bytes lines.old.rest.now lines.old.line r p done [] last_texts → IsWhole bytes r (with_body p (codes_of done))) }
    ensures fault { IfErr result (λ e. (bytes : List ℕ) (r : Read) (p : Program) (done : List Code) → InEnd bytes lines.old.rest.now lines.old.line r p done [] last_texts → IsFault bytes e) }
{
    match expect(lines, b"  return 0;\n") {
        Ok(()) => read_brace(lines),
        Err(fault) => Err(fault),
    }
}
