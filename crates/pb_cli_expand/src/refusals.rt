//! The refusals that tell why a file isn't expanded.

ghost use Rattle.std.specs.Prelude.{◌≡◌};
ghost use Rattle.pb_cli_expand.specs.Expand.{call_refusal, text_refusal};

use pb_cli_status::{CallWrong, Quantity, Refusal};
use pb_cli_verdict::error_refusal;
use pb_do::DoFault;
use pb_do_parse::ParseFault;

/// The refusal that tells why bytes are no file with subprotocols.
pub(crate) fn text_refusal(fault: ParseFault) -> Refusal
    ensures { result ≡ text_refusal fault }
{
    match fault {
        ParseFault::Lex(error) => error_refusal(error),
        ParseFault::Unexpected(place) => Refusal::Syntax(place),
        ParseFault::TooDeep(place) => Refusal::Limit(Quantity::Nesting, place),
        ParseFault::TooMany(quantity, place) => Refusal::Limit(quantity, place),
        ParseFault::NoMemory => Refusal::NoMemory,
    }
}

/// The refusal that tells why calls can't be replaced.
pub(crate) fn call_refusal(fault: DoFault) -> Refusal
    ensures { result ≡ call_refusal fault }
{
    match fault {
        DoFault::Twice(place) => Refusal::Call(CallWrong::Twice, place),
        DoFault::Unknown(place) => Refusal::Call(CallWrong::Unknown, place),
        DoFault::Arity(place) => Refusal::Call(CallWrong::Arity, place),
        DoFault::Stranger(place) => Refusal::Call(CallWrong::Stranger, place),
        DoFault::Cycle(place) => Refusal::Call(CallWrong::Cycle, place),
        DoFault::TooMany(quantity, place) => Refusal::Limit(quantity, place),
        DoFault::NoMemory => Refusal::NoMemory,
    }
}
