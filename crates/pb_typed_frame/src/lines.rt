//! Lines that only program texts have.

ghost use Rattle.std.specs.Prelude.{◌≡◌, ◌++◌, ◌∷◌, OnOk, map};
ghost use Rattle.pb_local.specs.Pieces.{joined, line};

use pb_local::{push_indent, push_pieces};
use pb_text::NoMemory;

/// Appends a line of these words.
pub fn push_text(out: &mut Vec<u8>, depth: usize, words: &[&[u8]]) -> Result<(), NoMemory>
    ensures { OnOk result (out.new.items ≡ out.old.items ++ line depth (joined (map (λ w. w.now) words.now))) }
{
    push_indent(out, depth)?;
    push_pieces(out, words)?;
    out.push(b'\n')?;
    Ok(())
}

/// Appends the first two words of a line.
pub fn push_front(out: &mut Vec<u8>, first: &[u8], second: &[u8]) -> Result<(), NoMemory>
    ensures { OnOk result (out.new.items ≡ out.old.items ++ (first.now ++ second.now)) }
{
    out.extend_from_slice(first)?;
    out.extend_from_slice(second)?;
    Ok(())
}

/// Appends a line that begins with two words.
pub fn push_begun(
    out: &mut Vec<u8>,
    first: &[u8],
    second: &[u8],
    words: &[&[u8]],
) -> Result<(), NoMemory>
    ensures { OnOk result (out.new.items ≡ out.old.items ++ line 0 (joined (first.now ∷ second.now ∷ map (λ w. w.now) words.now))) }
{
    push_front(out, first, second)?;
    push_text(out, 0, words)?;
    Ok(())
}

/// Appends a line that begins with a type and a name.
pub fn push_declared(
    out: &mut Vec<u8>,
    front: &[u8],
    element: &[u8],
    word: &[u8],
    name: &[u8],
    words: &[&[u8]],
) -> Result<(), NoMemory>
    ensures { OnOk result (out.new.items ≡ out.old.items ++ line 0 (joined (front.now ∷ element.now ∷ word.now ∷ name.now ∷ map (λ w. w.now) words.now))) }
{
    push_front(out, front, element)?;
    push_begun(out, word, name, words)?;
    Ok(())
}
