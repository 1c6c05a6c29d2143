//! The refusals that tell why a file isn't flattened.

ghost use Rattle.std.specs.Prelude.{◌≡◌};
ghost use Rattle.pb_cli_strips.specs.Strips.{strip_refusal, text_refusal};

use pb_cli_status::{Quantity, Refusal, StripWrong};
use pb_cli_verdict::error_refusal;
use pb_strips::StripFault;
use pb_strips_parse::ParseFault;

/// The refusal that tells why bytes are no file with strips.
pub(crate) fn text_refusal(fault: ParseFault) -> Refusal
    ensures { result ≡ text_refusal fault }
{
    match fault {
        ParseFault::Lex(error) => error_refusal(error),
        ParseFault::Unexpected(place) => Refusal::Syntax(place),
        ParseFault::TooDeep(place) => Refusal::Limit(Quantity::Nesting, place),
        ParseFault::TooMany(quantity, place) => Refusal::Limit(quantity, place),
        ParseFault::NoMemory => Refusal::NoMemory,
    }
}

/// The refusal that tells why a file with strips stands for none.
pub(crate) fn strip_refusal(fault: StripFault) -> Refusal
    ensures { result ≡ strip_refusal fault }
{
    match fault {
        StripFault::Width(place) => Refusal::Strip(StripWrong::Width, place),
        StripFault::Plain(place) => Refusal::Strip(StripWrong::Plain, place),
        StripFault::Variable(place) => Refusal::Strip(StripWrong::Variable, place),
        StripFault::Column(place) => Refusal::Strip(StripWrong::Column, place),
        StripFault::Clash(place) => Refusal::Strip(StripWrong::Clash, place),
        StripFault::TooMany(quantity, place) => Refusal::Limit(quantity, place),
        StripFault::NoMemory => Refusal::NoMemory,
    }
}
