use pb_text::{Key, Mark};

/// What a name is for.
#[derive(Clone, Copy)]
pub enum Noun {
    Constant,
    Protocol,
    Role,
    Label,
    Variable,
    Loop,
    Kernel,
}

/// A form of the grammar, or a part of one that can go on in several ways.
#[derive(Clone, Copy)]
pub enum Form {
    File,
    Top,
    Role,
    RoleRange,
    MoreRoles,
    Lin,
    Offset,
    Block,
    Statements,
    Items,
    MoreBranches,
    Payload,
    Carried,
    Count,
    Op,
    /// The first end of a message, which may bind, up to the second end.
    FirstEnd,
    FirstIndex,
    FirstInside,
    FirstAfter,
    /// An end that may bind.
    AnyEnd,
    AnyIndex,
    AnyInside,
    AnyAfter,
    /// An end that doesn't bind.
    PlainEnd,
    PlainIndex,
}

/// What an alternative of a form is made of.
#[derive(Clone, Copy)]
pub enum Symbol {
    Key(Key),
    Mark(Mark),
    Name(Noun),
    Number,
    /// A number other than 0.
    Count,
    /// The end of the file.
    End,
    Form(Form),
}
