/// How the walk over a statement or a block ends.
#[derive(Clone, Copy)]
pub enum Flow {
    /// What stands behind it comes next.
    Passed,
    /// Back to the start of the loop around it with this id.
    Back(u32),
    /// A rank's next entry, on this line, says something else than what the rank does.
    Differs { rank: u32, line: u32 },
    /// The run goes on for ever, and uses no entry any more.
    Endless,
}
