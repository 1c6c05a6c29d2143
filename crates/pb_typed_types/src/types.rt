use pb_text::Name;
use pb_types::Carried;

/// A constant of a types file.
#[derive(Clone, Copy)]
pub struct Constant {
    pub name: Name,
    pub value: u32,
}

/// What a types file says: for each label of the program, in order, what it carries, and the constants.
#[derive(Drop)]
pub struct Types {
    pub labels: Vec<Carried>,
    pub constants: Vec<Constant>,
}

/// What the labels of a text carry.
#[derive(Drop)]
pub enum Form {
    /// Each carries its words.
    Plain,
    /// Each carries what a types file says.
    Program(Types),
}
