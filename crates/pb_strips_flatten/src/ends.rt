ghost use Rattle.std.specs.Prelude.{◌≡◌, ◌∷◌, [], IfOk};
ghost use Rattle.pb_strips_syntax.specs.Columns.{column_name, column_of};
ghost use Rattle.pb_strips_syntax.specs.Flattening.{natural, flat_end};
ghost use Rattle.pb_strips_flatten.specs.Ends.{Names, IsSpotOf, IsRoleOf};
ghost use Rattle.pb_strips_flatten.specs.Parts.{end_in};

use crate::copies::copied_index;
use crate::round::Round;
use crate::stop::Stop;
use pb_strips_syntax::{Col, StripEnd};
use pb_syntax::End;
use pb_text::{Name, NoMemory, Spot, push_decimal};
use std::alloc::Global;

// The bytes of the name of a strip's column.
fn column_bytes(alloc: Global, strip: &Name, c: u64) -> Result<Vec<u8>, NoMemory>
    ensures { IfOk result (λ bytes. bytes.items ≡ column_name strip.now c) }
{
    let mut bytes = Vec::new(alloc);
    bytes.extend_from_slice(strip.bytes())?;
    bytes.push(b'_')?;
    push_decimal(&mut bytes, c)?;
    Ok(bytes)
}

/// The role that is a strip's column. `Unnamed` comes exactly where its name would be too long.
pub(crate) fn column_spot(alloc: Global, strip: &Spot, c: u64) -> Result<Spot, Stop>
    ensures { IsSpotOf result strip.now c }
{
    let bytes = column_bytes(alloc, &strip.name, c)?;
    match Name::of(&bytes) {
        Some(name) => Ok(Spot {
            name,
            place: strip.place,
        }),
        None => Err(Stop::Unnamed),
    }
}

// The column that an end names, where one below 0 counts as 0.
fn column_of(col: &Col, value: Option<u32>) -> u64
    ensures { result ≡ natural (column_of col.now value) }
{
    let base = match (col.var, value) {
        (Some(_), Some(value)) => i64::from(value),
        _ => 0,
    };
    let column = base + i64::from(col.off);
    if column < 0 { 0 } else { column as u64 }
}

impl Round {
    fn role(self, role: &Spot, col: &Option<Col>) -> Result<Spot, Stop>
        ensures { IsRoleOf result role.now col.now self.value }
    {
        match col {
            None => Ok(*role),
            Some(col) => column_spot(self.alloc, role, column_of(col, self.value)),
        }
    }

    /// An end in this copy.
    pub(crate) fn end(self, end: &StripEnd) -> Result<End, Stop>
        ensures { Names result (λ e. e) (flat_end self.value end.now) (end_in self.value end.now ∷ []) }
    {
        let role = self.role(&end.role, &end.col)?;
        Ok(End {
            role,
            index: copied_index(&end.index),
        })
    }
}
