/// What a log is, beside the sequential run under its own answers.
#[derive(Clone, Copy)]
pub enum Ruling {
    /// The run ends, and each rank has done its part of it.
    Whole,
    /// Each rank has done a first part of what it does in the run.
    Covered,
    /// The rank has done something else than what it does in the run; `line` tells it. It is the first such action of the
    /// run.
    Differs { rank: u32, line: u32 },
    /// The rank, the least such, has done all that it does in the run, and more; `line` is the first more.
    Beyond { rank: u32, line: u32 },
}
