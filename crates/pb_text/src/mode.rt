/// How a send or the entry into a collective goes on (MPI 3.1, 3.4 and 5.1): a standard send may be buffered, or wait
/// until its message was taken.
#[derive(Clone, Copy)]
pub enum Mode {
    /// The sender goes on at once; a rank leaves a collective once what it needs has entered.
    Eager,
    /// The sender waits until its message was taken; a rank leaves a collective once all have entered.
    Waiting,
}
