//! What kinds of names and of payloads are called.

use pb_explain_source::{Page, Part};
use pb_explain_tree::Kind;
use pb_syntax::Payload;
use pb_text::NoMemory;

/// A kind of names.
pub fn kind(kind: Kind) -> &'static str {
    match kind {
        Kind::Constant => "the constant",
        Kind::Protocol => "the protocol",
        Kind::Role => "a role",
        Kind::Label => "a label",
        Kind::ComputeKernel => "a compute kernel",
        Kind::ChoiceKernel => "a choice kernel",
        Kind::Loop => "a loop",
        Kind::Variable => "a variable",
    }
}

/// Appends a payload as it is printed.
pub fn say_payload(page: &mut Page, payload: Payload) -> Result<(), NoMemory> {
    match payload {
        Payload::Unit => page.say(&[Part::Text("`()`")]),
        Payload::Int32(1) => page.say(&[Part::Text("`(int32)`")]),
        Payload::Uint32(1) => page.say(&[Part::Text("`(uint32)`")]),
        Payload::Int32(count) => page.say(&[
            Part::Text("`(int32["),
            Part::Number(i64::from(count)),
            Part::Text("])`"),
        ]),
        Payload::Uint32(count) => page.say(&[
            Part::Text("`(uint32["),
            Part::Number(i64::from(count)),
            Part::Text("])`"),
        ]),
    }
}
