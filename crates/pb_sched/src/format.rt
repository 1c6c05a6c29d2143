/// The format of a schedule's text.
#[derive(Clone, Copy)]
pub enum Format {
    /// A rank for each event, and each event is eager.
    One,
    /// A rank and a mode for each event.
    Two,
}
