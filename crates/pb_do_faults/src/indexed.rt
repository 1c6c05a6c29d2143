ghost use Rattle.std.specs.Prelude.{◌≡◌, [], map, None, OnOk, IfOk, IfErr};
ghost use Rattle.pb_do_syntax.specs.Names.{names};
ghost use Rattle.pb_do_syntax.specs.Plain.{plain_sub};
ghost use Rattle.pb_do_inline.specs.Index.{IsIndex};
ghost use Rattle.pb_do_faults.specs.Faults.{repeated, twice_behind};
ghost use Rattle.pb_do_faults.specs.Found.{first, IsTwice};

use crate::fault::CallFault;
use crate::table::Table;
use pb_do_inline::Index;
use pb_do_syntax::Sub;
use pb_text::{Names, Spot};
use std::alloc::Global;

fn table_of_params(alloc: Global, params: &[Spot]) -> Result<Names, CallFault>
    ensures names { IfOk result (λ table. table ≡ names params.now) }
    ensures once { OnOk result (first (repeated [] params.now) ≡ None) }
    ensures twice { IfErr result (λ e. IsTwice (repeated [] params.now) e) }
{
    let mut table = Table::new(alloc);
    for param in params {
        table.add(param)?;
    }
    Ok(table.names)
}

/// The tables of the names of subprotocols and of their parameters, where no name stands twice.
///
/// Answers only `Twice`, exactly where a name does, with the first place, or `NoMemory`.
pub fn index_of_subs(alloc: Global, subs: &[Sub]) -> Result<Index, CallFault>
    ensures index { IfOk result (λ index. IsIndex (map plain_sub subs.now) index) }
    ensures once { OnOk result (first (twice_behind [] (map plain_sub subs.now)) ≡ None) }
    ensures twice { IfErr result (λ e. IsTwice (twice_behind [] (map plain_sub subs.now)) e) }
{
    let mut table = Table::new(alloc);
    let mut params = Vec::new(alloc);
    for sub in subs {
        table.add(&sub.name)?;
        params.push(table_of_params(alloc, &sub.params)?)?;
    }
    Ok(Index {
        names: table.names,
        params,
    })
}
