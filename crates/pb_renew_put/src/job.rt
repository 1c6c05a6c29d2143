/// What is to be put in the place of OUT and of OUT.left, and what the files were when that was made.
#[derive(Drop)]
pub struct Job {
    /// The name of FILE.
    pub file: String,
    /// What FILE has.
    pub source: Vec<u8>,
    /// The name of OUT.
    pub out: String,
    /// What OUT has; none where it is missing.
    pub old: Option<Vec<u8>>,
    /// What OUT gets.
    pub text: Vec<u8>,
    /// Where some bodies are gone: what becomes of OUT.left.
    pub leaving: Option<Leaving>,
    /// Whether the old OUT is kept whole as OUT.old, or OUT.old.2, and so on.
    pub keeps_old: bool,
}

/// What OUT.left gets.
#[derive(Drop)]
pub struct Leaving {
    /// What it has; none where it is missing.
    pub before: Option<Vec<u8>>,
    /// What it gets.
    pub bodies: Vec<u8>,
}
