ghost use Rattle.std.specs.Prelude.{◌≡◌, ◌<◌, ◌^◌, ◌-◌, ◌++◌, [], ◌∷◌, ◌&&◌, ◌||◌, not, length, OnOk, IfOk};
ghost use Rattle.pb_core_language.specs.Meaning.{position_of};
ghost use Rattle.pb_core_file_rules.specs.Lowering.{first};
ghost use Rattle.pb_core_file_rules.specs.Visiting.{met_names, is_wrong_row, with_met, wrong_behind};

use crate::name_table::NameTable;
use crate::visits::{Met, is_kind};
use pb_text::{Name, NoMemory, Place};
use std::alloc::Global;

// Whether a name that was met before as this kind, or another, may stand here.
fn may_stand(is_alike: bool, one: &Met) -> bool
    ensures { result ≡ (is_alike && not (one.now.declares || one.now.is_astray)) }
{
    is_alike && !(one.declares || one.is_astray)
}

// The names met so far, each where it was met first.
#[derive(Drop)]
struct MetTable {
    table: NameTable,
    rows: Vec<Met>,
}

impl MetTable {
    // Where the name stands among the rows, or their number.
    fn place(&self, name: &Name) -> usize
        requires { self.now.table.names ≡ met_names self.now.rows.items }
        ensures { result ≡ position_of name.now (met_names self.now.rows.items) }
    {
        self.table.find(name) as usize
    }

    // Whether a name that was met before may stand here.
    fn agrees(&self, one: &Met, id: usize) -> bool
        requires there { id < length self.now.rows.items }
        requires id { id ≡ position_of one.now.spot.name (met_names self.now.rows.items) }
        ensures { result ≡ not (is_wrong_row self.now.rows.items one.now) }
    {
        let row = &self.rows[id];
        let is_alike = is_kind(one.kind, row.kind);
        may_stand(is_alike, one)
    }

    #[tactic(auto, using(crate::proofs::MetRows::names_last, crate::proofs::MetRows::as_many))]
    fn push(&mut self, one: &Met) -> Result<(), NoMemory>
        requires names { self.old.table.names ≡ met_names self.old.rows.items }
        requires last { length self.old.rows.items ≡ position_of one.now.spot.name (met_names self.old.rows.items) }
        requires few { length self.old.rows.items < 2 ^ 32 - 1 }
        ensures names { OnOk result (self.new.table.names ≡ met_names self.new.rows.items) }
        ensures rows { OnOk result (self.new.rows.items ≡ self.old.rows.items ++ (one.now ∷ [])) }
    {
        self.table.add(one.spot.name)?;
        self.rows.push(*one)?;
        Ok(())
    }

    // Adds a name that wasn't met yet, and says whether it may stand here.
    fn add(&mut self, one: &Met) -> Result<bool, NoMemory>
        requires names { self.old.table.names ≡ met_names self.old.rows.items }
        requires few { length self.old.rows.items < 2 ^ 32 - 1 }
        ensures names { OnOk result (self.new.table.names ≡ met_names self.new.rows.items) }
        ensures rows { OnOk result (self.new.rows.items ≡ with_met self.old.rows.items one.now) }
        ensures right { IfOk result (λ b. b ≡ not (is_wrong_row self.old.rows.items one.now)) }
    {
        let id = self.place(&one.spot.name);
        if id < self.rows.len() {
            return Ok(self.agrees(one, id));
        }
        self.push(one)?;
        Ok(!one.is_astray)
    }
}

/// The place of the first of the names that may not stand where it does; `None` exactly where each may. There are fewer
/// than 2^32 - 1 names.
pub fn first_wrong_of(alloc: Global, list: &[Met]) -> Result<Option<Place>, NoMemory>
    requires { length list.now < 2 ^ 32 - 1 }
    ensures { IfOk result (λ found. found ≡ first (wrong_behind [] list.now)) }
{
    let mut table = MetTable {
        table: NameTable::new(alloc),
        rows: Vec::new(alloc),
    };
    for one in list {
        if !table.add(one)? {
            return Ok(Some(one.spot.place));
        }
    }
    Ok(None)
}
