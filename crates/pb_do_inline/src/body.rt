ghost use Rattle.std.specs.Prelude.{map};
ghost use Rattle.pb_do_syntax.specs.Plain.{plain_sub, plain_block};
ghost use Rattle.pb_do_syntax.specs.Inlining.{InlinesAll, top_site, block_behind};
ghost use Rattle.pb_do_inline.specs.Ends.{written, Ends};
ghost use Rattle.pb_do_inline.specs.Index.{IsIndex};

use crate::count::Count;
use crate::halt::Halt;
use crate::output::Output;
use crate::site::{Index, Site};
use crate::subs::Subs;
use pb_do_syntax::{CallBlock, Sub};
use std::alloc::Global;

/// The statements of a protocol's block, each call replaced by the statements of its subprotocol.
///
/// The tables are those of the subprotocols. `TooMany` comes exactly at the first statement or call, in the order of what
/// comes out and a call before its statements, that would be number 4,001 or open brace 65. No more than that is built.
pub fn inlined_body(
    alloc: Global,
    subs: &[Sub],
    index: &Index,
    body: &CallBlock,
) -> Result<Output, Halt>
    requires { IsIndex (map plain_sub subs.now) index.now }
    ensures { Ends result (λ o. written o) (InlinesAll (map plain_sub subs.now) top_site (plain_block body.now).list (block_behind 0)) }
{
    let subs = Subs {
        alloc,
        list: subs,
        index,
    };
    let site = Site {
        sub: None,
        names: Vec::new(alloc),
        root: None,
    };
    let mut out = Output::behind(alloc, Count { n: 0 });
    subs.statements(&body.list, &site, 63, &mut out)?;
    Ok(out)
}
