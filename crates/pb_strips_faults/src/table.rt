ghost use Rattle.std.specs.Prelude.{◌≡◌, ◌<◌, ◌⊎◌, List, [], length, OnOk, IfOk, MatchOption};
ghost use Rattle.pb_strips_syntax.specs.declared.tree.StripRole.{StripRole};
ghost use Rattle.pb_strips_syntax.specs.Columns.{column_name, numbers};
ghost use Rattle.pb_strips_faults.specs.Faults.{same, is_one_of, is_column, is_column_of_some};
ghost use Rattle.pb_strips_faults.specs.Tabled.{is_among, Adds, IsTableOf};

use pb_strips_syntax::StripRole;
use pb_text::{Name, Names, NoMemory, Spot, push_decimal};
use std::alloc::Global;

/// The names of columns, and how many there are.
#[derive(Drop)]
pub struct Table {
    pub names: Names,
    pub count: u32,
    ghost counted: { count ≡ length names },
}

// What a column is called, however long that is.
fn column_bytes(alloc: Global, strip: &Name, column: &u64) -> Result<Vec<u8>, NoMemory>
    ensures { IfOk result (λ bytes. bytes.items ≡ column_name strip.now column.now) }
{
    let mut bytes = Vec::new(alloc);
    bytes.extend_from_slice(strip.bytes())?;
    bytes.push(b'_')?;
    push_decimal(&mut bytes, *column)?;
    Ok(bytes)
}

// None exactly where that is too long for a name, so that no name of a file can be the same.
fn column_of(alloc: Global, strip: &Name, column: &u64) -> Result<Option<Name>, NoMemory>
    ensures { IfOk result (λ name. MatchOption name ((length (column_name strip.now column.now) ≡ 0) ⊎ (64 < length (column_name strip.now column.now))) (λ n. n ≡ column_name strip.now column.now)) }
{
    let bytes = column_bytes(alloc, strip, column)?;
    Ok(Name::of(&bytes))
}

impl Table {
    /// No names. Takes no memory.
    pub fn new(alloc: Global) -> Table
        ensures { result.names ≡ [] }
    {
        Table {
            names: Names::new(alloc),
            count: 0,
        }
    }

    /// Whether the name is that of a column. Takes no memory.
    pub fn has(&self, spot: &Spot) -> bool
        ensures { (roles : List StripRole) → IsTableOf roles self.now.names → result ≡ is_column_of_some roles spot.now.name }
    {
        let _bytes = spot.name.bytes();
        self.names.find(&spot.name).is_some()
    }

    fn push(&mut self, name: &Name) -> Result<(), NoMemory>
        ensures { OnOk result (Adds self.old.names (same name.now) self.new.names) }
    {
        if self.count == u32::MAX {
            return Err(NoMemory);
        }
        let id = self.names.intern(*name)?;
        if id == self.count {
            self.count += 1;
        }
        Ok(())
    }

    fn add_column(&mut self, alloc: Global, strip: &Name, column: &u64) -> Result<(), NoMemory>
        ensures { OnOk result (Adds self.old.names (same (column_name strip.now column.now)) self.new.names) }
    {
        match column_of(alloc, strip, column)? {
            Some(name) => self.push(&name),
            None => Ok(()),
        }
    }

    fn add_columns(
        &mut self,
        alloc: Global,
        strip: &Name,
        ends: &(u32, u32),
    ) -> Result<(), NoMemory>
        ensures { OnOk result (Adds self.old.names (is_one_of strip.now (numbers ends.now.0 ends.now.1)) self.new.names) }
    {
        for column in u64::from(ends.0)..u64::from(ends.1) + 1 {
            self.add_column(alloc, strip, &column)?;
        }
        Ok(())
    }

    fn add_role(&mut self, alloc: Global, role: &StripRole) -> Result<(), NoMemory>
        ensures { OnOk result (Adds self.old.names (is_column role.now.role role.now.columns) self.new.names) }
    {
        match &role.columns {
            Some(ends) => self.add_columns(alloc, &role.role.name, ends),
            None => Ok(()),
        }
    }
}

/// The names of the columns of all these declarations.
///
/// It answers `NoMemory` where memory runs out, or where one more column comes to 4,294,967,295 names.
pub fn table_of(alloc: Global, roles: &[StripRole]) -> Result<Table, NoMemory>
    ensures { IfOk result (λ table. IsTableOf roles.now table.names) }
{
    let mut table = Table::new(alloc);
    for role in roles {
        table.add_role(alloc, role)?;
    }
    Ok(table)
}
