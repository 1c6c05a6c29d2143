ghost use Rattle.pb_cost_blocks.specs.Answers.{SameAnswer};

use crate::stop::Stop;
use pb_cost_joins::{Count, NoMemory, Span, constant};
use std::alloc::Global;

/// The most that is counted of a message.
const MOST_SENT: u32 = 4_100_000;

/// The same number at each N.
pub(crate) fn same(alloc: Global, span: Span, number: u32) -> Result<Count, Stop>
    ensures { SameAnswer span number result }
{
    if number > MOST_SENT {
        return Err(Stop::Unfit);
    }
    match constant(alloc, span, i64::from(number)) {
        Ok(count) => Ok(count),
        Err(NoMemory) => Err(Stop::NoMemory),
    }
}
