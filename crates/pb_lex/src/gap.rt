ghost use Rattle.std.specs.Prelude.{◌≡◌, ◌≤◌, ◌<◌, true, length, slice_index};
ghost use Rattle.std.specs.List.{prefix_len};
ghost use Rattle.pb_text.specs.Lexemes.{is_blank};
ghost use Rattle.pb_lex.specs.Seen.{AreGaps};
ghost use Rattle.pb_lex.specs.declared.lexeme.Sort.TheVariants.{Gap};

use crate::lexeme::{Lexeme, Sort};

/// Blanks, as many as there are.
#[tactic(auto, using(crate::proofs::Gaps::blanks_are_gaps))]
pub fn blanks(text: &[u8]) -> Lexeme
    requires some { 0 < length text.now }
    requires begun { is_blank (slice_index text.now 0) ≡ true }
    ensures sort { result.sort ≡ Gap }
    ensures gaps { AreGaps result.len text.now }
    ensures some { 0 < result.len }
    ensures within { result.len ≤ length text.now }
{
    Lexeme {
        sort: Sort::Gap,
        len: blanks_len(text),
    }
}

fn blanks_len(text: &[u8]) -> usize
    ensures { result ≡ prefix_len is_blank text.now }
{
    text.iter().take_while(|byte| is_blank(**byte)).count()
}

/// A space, a tab, a carriage return or a line feed.
pub fn is_blank(byte: u8) -> bool
    ensures { result ≡ is_blank byte }
{
    byte == b' ' || byte == b'\t' || byte == b'\r' || byte == b'\n'
}
