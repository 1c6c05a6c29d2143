use crate::Element;
use pb_text::{Place, Spot};

/// `const NAME = NUMBER;`
#[derive(Clone, Copy)]
pub struct Constant {
    pub name: Spot,
    /// At most 2,000,000,000.
    pub value: u32,
    pub value_place: Place,
}

/// A type where it stands.
#[derive(Clone, Copy)]
pub struct ElementSpot {
    pub element: Element,
    pub place: Place,
}

/// How many elements a message has.
#[derive(Clone, Copy)]
pub enum Extent {
    /// No bracket: one.
    One,
    /// `[NUMBER]`: so many in each message, at most 2,000,000,000.
    Number { value: u32, place: Place },
    /// `[NAME]`: as many as the constant says.
    Constant(Spot),
    /// `[]`: as many as the sender says when it runs.
    Open,
}

/// `LABEL TYPE;`, `LABEL TYPE[COUNT];` or `LABEL TYPE[];`
#[derive(Clone, Copy)]
pub struct TypeRow {
    pub label: Spot,
    pub carries: ElementSpot,
    pub extent: Extent,
}

/// A types file.
#[derive(Drop)]
pub struct TypesFile {
    pub constants: Vec<Constant>,
    pub rows: Vec<TypeRow>,
}
