/// What a limit is on.
#[derive(Clone, Copy, Debug)]
pub enum Quantity {
    /// Bytes of a file.
    FileBytes,
    /// The size of a number in a protocol.
    NumberSize,
    /// Bytes of a name.
    NameLength,
    /// Open braces in a protocol.
    Nesting,
    /// Statements of a protocol.
    Statements,
    /// Roles of a protocol.
    Roles,
    /// Branches of one choice.
    Branches,
    /// The low end of the constant, and constants beside an index.
    Constant,
    /// Elements of one payload.
    PayloadCount,
    /// Numbers of ranks at which the order of a file's index ends changes.
    Breakpoints,
    /// Simulated ranks.
    Ranks,
    /// Words of messages that were sent and not yet received.
    WordsInFlight,
    /// Open braces in a text.
    TextNesting,
    /// Statements in a text.
    TextStatements,
    /// Events in a schedule.
    Events,
    /// Pieces of a count of messages or words, each a line in N.
    Pieces,
}
