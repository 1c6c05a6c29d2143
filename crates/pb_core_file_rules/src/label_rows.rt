ghost use Rattle.std.specs.Prelude.{◌≡◌, ◌<◌, ◌≤◌, ◌+◌, ◌^◌, ◌-◌, ◌++◌, [], ◌∷◌, map, length, None, OnOk, IfOk, IfErr};
ghost use Rattle.pb_core_language.specs.FileRules.{payload_eq, mislabelled};
ghost use Rattle.pb_core_language.specs.Meaning.{position_of, label_names, labels_after};
ghost use Rattle.pb_core_file_rules.specs.Lowering.{first, Breaks};
ghost use Rattle.pb_core_file_rules.specs.Tables.{labelled_of, with_label, keeps, row, broken_behind};

use crate::labels::Labelled;
use crate::name_table::NameTable;
use pb_core_language::LowerFault;
use pb_syntax::{CoreLabel, Name, NoMemory, Payload};
use std::alloc::Global;

/// The labels of a file, each once.
#[derive(Drop)]
pub struct LabelTable {
    pub table: NameTable,
    pub rows: Vec<CoreLabel>,
}

fn payload_eq(a: Payload, b: Payload) -> bool
    ensures { result ≡ payload_eq a b }
{
    match (a, b) {
        (Payload::Unit, Payload::Unit) => true,
        (Payload::Int32(m), Payload::Int32(n)) => m == n,
        (Payload::Uint32(m), Payload::Uint32(n)) => m == n,
        (Payload::Unit, Payload::Int32(_) | Payload::Uint32(_)) => false,
        (Payload::Int32(_), Payload::Unit | Payload::Uint32(_)) => false,
        (Payload::Uint32(_), Payload::Unit | Payload::Int32(_)) => false,
    }
}

impl LabelTable {
    fn new(alloc: Global) -> LabelTable
        ensures names { result.table.names ≡ [] }
        ensures rows { result.rows.items ≡ [] }
    {
        LabelTable {
            table: NameTable::new(alloc),
            rows: Vec::new(alloc),
        }
    }

    // Where the label stands among the rows, or their number.
    fn place(&self, name: &Name) -> usize
        requires { self.now.table.names ≡ label_names self.now.rows.items }
        ensures { result ≡ position_of name.now (label_names self.now.rows.items) }
    {
        self.table.find(name) as usize
    }

    // Whether the label keeps the rule on labels beside its row.
    #[tactic(auto, using(crate::proofs::LabelRows::row_payload))]
    fn agrees(&self, one: &Labelled, id: usize) -> bool
        requires there { id < length self.now.rows.items }
        requires id { id ≡ position_of one.now.label.name (label_names self.now.rows.items) }
        ensures { result ≡ keeps self.now.rows.items (labelled_of one.now) }
    {
        one.is_fine && payload_eq(one.payload, self.rows[id].payload)
    }

    #[tactic(auto, using(crate::proofs::LabelRows::names_last, crate::proofs::LabelRows::as_many))]
    fn push(&mut self, one: &Labelled) -> Result<(), NoMemory>
        requires names { self.old.table.names ≡ label_names self.old.rows.items }
        requires last { length self.old.rows.items ≡ position_of one.now.label.name (label_names self.old.rows.items) }
        requires few { length self.old.rows.items < 2 ^ 32 - 1 }
        ensures names { OnOk result (self.new.table.names ≡ label_names self.new.rows.items) }
        ensures rows { OnOk result (self.new.rows.items ≡ self.old.rows.items ++ (row (labelled_of one.now) ∷ [])) }
    {
        let name = one.label.name;
        self.table.add(name)?;
        self.rows.push(CoreLabel {
            name,
            payload: one.payload,
        })?;
        Ok(())
    }

    // Adds a label that isn't there yet, and says whether it keeps the rule on labels.
    #[tactic(auto, using(crate::proofs::LabelRows::stays, crate::proofs::LabelRows::goes_last, crate::proofs::LabelRows::keeps_new, crate::proofs::LabelRows::just_behind))]
    fn add(&mut self, one: &Labelled) -> Result<bool, NoMemory>
        requires names { self.old.table.names ≡ label_names self.old.rows.items }
        requires few { length self.old.rows.items < 2 ^ 32 - 1 }
        ensures names { OnOk result (self.new.table.names ≡ label_names self.new.rows.items) }
        ensures rows { OnOk result (self.new.rows.items ≡ with_label self.old.rows.items (labelled_of one.now)) }
        ensures keeps { IfOk result (λ b. b ≡ keeps self.old.rows.items (labelled_of one.now)) }
    {
        let id = self.place(&one.label.name);
        if id < self.rows.len() {
            return Ok(self.agrees(one, id));
        }
        self.push(one)?;
        Ok(one.is_fine)
    }
}

/// The table of the labels, or the first label that breaks the rule on labels.
pub fn label_table(alloc: Global, list: &[Labelled]) -> Result<LabelTable, LowerFault>
    requires { length list.now < 2 ^ 32 - 1 }
    ensures names { IfOk result (λ t. t.table.names ≡ label_names t.rows.items) }
    ensures rows { IfOk result (λ t. t.rows.items ≡ labels_after [] (map labelled_of list.now)) }
    ensures keeps { OnOk result (first (mislabelled [] (map labelled_of list.now)) ≡ None) }
    ensures breaks { IfErr result (λ e. Breaks 2 (mislabelled [] (map labelled_of list.now)) e) }
{
    filled(alloc, list)
}

fn filled(alloc: Global, list: &[Labelled]) -> Result<LabelTable, LowerFault>
    requires { length list.now < 2 ^ 32 - 1 }
    ensures names { IfOk result (λ t. t.table.names ≡ label_names t.rows.items) }
    ensures rows { IfOk result (λ t. t.rows.items ≡ labels_after [] (map labelled_of list.now)) }
    ensures keeps { OnOk result (first (broken_behind [] (map labelled_of list.now)) ≡ None) }
    ensures breaks { IfErr result (λ e. Breaks 2 (broken_behind [] (map labelled_of list.now)) e) }
{
    let mut table = LabelTable::new(alloc);
    for one in list {
        if !table.add(one)? {
            return Err(LowerFault::Broken {
                rule: 2,
                place: one.label.place,
            });
        }
    }
    Ok(table)
}
