use pb_text::Place;

/// A call where it stands: the number of the subprotocol that it names, if there is one, and how many arguments it has.
/// Its place is that of the name.
#[derive(Clone, Copy)]
pub struct CallSite {
    pub callee: Option<u32>,
    pub args: usize,
    pub place: Place,
}

/// The calls of a subprotocol or of the protocol, in the order of the file.
#[derive(Drop)]
pub struct Body {
    pub calls: Vec<CallSite>,
}
