ghost use Rattle.std.specs.Prelude.{◌≡◌, None, map, slice_get, OnOk, IfOk, IfErr};
ghost use Rattle.pb_syntax.specs.Plain.{plain_statement};
ghost use Rattle.pb_strips_syntax.specs.Flattening.{flat_in};
ghost use Rattle.pb_strips_syntax.specs.Plain.{plain_block};
ghost use Rattle.pb_strips_flatten.specs.Excess.{origins_in};
ghost use Rattle.pb_strips_flatten.specs.Parts.{AllFit, ends_in};
ghost use Rattle.pb_strips_flatten.specs.Halts.{IsStatementExcess};

use crate::count::Count;
use crate::halt::Halt;
use crate::output::Output;
use crate::round::Round;
use crate::stop::Stop;
use crate::walk::put_block;
use pb_strips_syntax::StripBlock;
use pb_syntax::Statement;
use pb_text::Quantity;
use std::alloc::Global;

/// The statements that come of a protocol's block, or the place that the first statement too many comes from.
pub fn flat_body(alloc: Global, body: &StripBlock) -> Result<Vec<Statement>, Halt>
    requires { AllFit (ends_in (plain_block body.now).list None) }
    ensures flat { IfOk result (λ list. map plain_statement list.items ≡ flat_in (plain_block body.now).list None) }
    ensures few { OnOk result (slice_get (origins_in (plain_block body.now).list) 4000 ≡ None) }
    ensures many { IfErr result (λ h. IsStatementExcess (plain_block body.now).list h) }
{
    let mut out = Output::behind(alloc, Count { n: 0 });
    let round = Round { alloc, value: None };
    match put_block(body, round, &mut out) {
        Ok(()) => Ok(out.list),
        Err(Stop::TooMany(place)) => Err(Halt::TooMany(Quantity::Statements, place)),
        Err(Stop::Unnamed) => unreachable!(),
        Err(Stop::NoMemory) => Err(Halt::NoMemory),
    }
}
