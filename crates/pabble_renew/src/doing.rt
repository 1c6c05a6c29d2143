/// What is done with a plan.
#[derive(Clone, Copy, PartialEq, Eq)]
pub enum Doing {
    /// OUT is renewed.
    Renew,
    /// It is told, and nothing is written.
    Tell,
}
