/// How many actions of each kind were done, and how many words all sends and entries had.
#[derive(Clone, Copy, PartialEq, Eq)]
pub struct Counts {
    pub sends: u64,
    pub receives: u64,
    pub runs: u64,
    pub chooses: u64,
    pub enters: u64,
    pub leaves: u64,
    pub words: u64,
}
