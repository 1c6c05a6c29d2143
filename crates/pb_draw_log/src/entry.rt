use pb_text::Name;

/// What a rank does, without the name of the kernel or the label.
#[derive(Clone, Copy, Debug, PartialEq, Eq, Hash)]
pub enum Deed {
    /// A kernel chooses this branch.
    Choose(u32),
    /// A kernel runs.
    Run,
    /// A message goes to this rank.
    Send(u32),
    /// A message from this rank is taken.
    Recv(u32),
    /// A collective is entered.
    Enter,
    /// A collective is left.
    Leave,
}

/// What a line says, but for its words.
#[derive(Clone, Copy)]
pub struct Head {
    /// Whose action it is.
    pub rank: u32,
    /// What the rank does.
    pub deed: Deed,
    /// The kernel or the label. A barrier is called `barrier`.
    pub name: Name,
}

/// What a line says, its name by its number.
#[derive(Clone, Copy, Debug, PartialEq, Eq, Hash)]
pub struct Step {
    /// Whose action it is.
    pub rank: u32,
    /// What the rank does.
    pub deed: Deed,
    /// The kernel or the label, by its place among the log's names.
    pub name: u32,
}

/// An action of a log.
#[derive(Clone, Copy, Debug)]
pub struct Entry {
    /// What is done.
    pub step: Step,
    /// How many words the line has.
    pub words: u32,
    /// Where the words begin in the bytes of the log, with the space before the first.
    pub start: usize,
}

/// A log.
#[derive(Drop)]
pub struct Log {
    /// The names of kernels and labels, in the order in which they come first.
    pub names: Vec<Name>,
    /// The actions, in the order of the lines.
    pub entries: Vec<Entry>,
    /// Where the lines of actions end in the bytes of the log. Behind it stands at most one line: how the run ended.
    pub end: usize,
}
