ghost use Rattle.std.specs.Prelude.{◌≡◌, ◌<◌, ◌^◌, ◌-◌, ◌++◌, [], ◌∷◌, length, OnOk, IfOk};
ghost use Rattle.pb_core_language.specs.Meaning.{position_of, kernel_names, kernels_after};
ghost use Rattle.pb_core_file_rules.specs.Tables.{with_kernel};

use crate::name_table::NameTable;
use pb_syntax::{CoreKernel, Name, NoMemory};
use std::alloc::Global;

/// The kernels of a file, each once.
#[derive(Drop)]
pub struct KernelTable {
    pub table: NameTable,
    pub rows: Vec<CoreKernel>,
}

impl KernelTable {
    // Where the kernel stands among the rows, or their number.
    fn place(&self, name: &Name) -> usize
        requires { self.now.table.names ≡ kernel_names self.now.rows.items }
        ensures { result ≡ position_of name.now (kernel_names self.now.rows.items) }
    {
        self.table.find(name) as usize
    }

    #[tactic(auto, using(crate::proofs::KernelRows::names_last, crate::proofs::KernelRows::as_many))]
    fn push(&mut self, one: &CoreKernel) -> Result<(), NoMemory>
        requires names { self.old.table.names ≡ kernel_names self.old.rows.items }
        requires last { length self.old.rows.items ≡ position_of one.now.name (kernel_names self.old.rows.items) }
        requires few { length self.old.rows.items < 2 ^ 32 - 1 }
        ensures names { OnOk result (self.new.table.names ≡ kernel_names self.new.rows.items) }
        ensures rows { OnOk result (self.new.rows.items ≡ self.old.rows.items ++ (one.now ∷ [])) }
    {
        self.table.add(one.name)?;
        self.rows.push(*one)?;
        Ok(())
    }

    // Adds a kernel that isn't there yet.
    fn add(&mut self, one: &CoreKernel) -> Result<(), NoMemory>
        requires names { self.old.table.names ≡ kernel_names self.old.rows.items }
        requires few { length self.old.rows.items < 2 ^ 32 - 1 }
        ensures names { OnOk result (self.new.table.names ≡ kernel_names self.new.rows.items) }
        ensures rows { OnOk result (self.new.rows.items ≡ with_kernel self.old.rows.items one.now) }
    {
        let id = self.place(&one.name);
        if id < self.rows.len() {
            return Ok(());
        }
        self.push(one)?;
        Ok(())
    }
}

/// The table of the kernels.
pub fn kernel_table(alloc: Global, list: &[CoreKernel]) -> Result<KernelTable, NoMemory>
    requires { length list.now < 2 ^ 32 - 1 }
    ensures names { IfOk result (λ t. t.table.names ≡ kernel_names t.rows.items) }
    ensures rows { IfOk result (λ t. t.rows.items ≡ kernels_after [] list.now) }
{
    let mut table = KernelTable {
        table: NameTable::new(alloc),
        rows: Vec::new(alloc),
    };
    for one in list {
        table.add(one)?;
    }
    Ok(table)
}
