ghost use Rattle.std.specs.Prelude.{map};
ghost use Rattle.pb_do_syntax.specs.Plain.{plain_sub};
ghost use Rattle.pb_do_inline.specs.Index.{IsIndex};

use crate::site::Index;
use pb_do_syntax::Sub;
use std::alloc::Global;

/// The subprotocols of a file.
#[derive(Clone, Copy)]
pub struct Subs<'a> {
    pub alloc: Global,
    pub list: &'a [Sub],
    pub index: &'a Index,
    ghost indexed: { IsIndex (map plain_sub list.now) index.now },
}
