/// Which markers a kernel file has.
#[derive(Clone, Copy, Debug, PartialEq, Eq)]
pub enum Dialect {
    /// Those of plain texts.
    Plain,
    /// Those of program texts: `room_` beside them.
    Program,
}
