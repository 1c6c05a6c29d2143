//! The words at the end of a line.

ghost use Rattle.std.specs.Prelude.{◌≡◌, IfOk};
ghost use Rattle.pb_judge_log.specs.Reading.{words_in, fields_behind};

use crate::fields::next;
use crate::numbers::word;
use pb_syntax::Payload;
use pb_text::{NoMemory, Words};
use std::alloc::Global;

/// The words that the fields left are, where each is a word of the payload.
pub fn words(alloc: Global, payload: Payload, text: &[u8]) -> Result<Option<Words>, NoMemory>
    ensures { IfOk result (λ o. o ≡ words_in payload (fields_behind text.now)) }
{
    let mut list = Vec::new(alloc);
    let mut rest = text;
    'fields: while let Some((field, behind)) = next(rest) {
        match word(payload, field) {
            None => return Ok(None),
            Some(word) => list.push(word)?,
        }
        rest = behind;
    }
    Ok(Some(Words::of(list)))
}
