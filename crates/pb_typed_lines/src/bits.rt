use pb_local::Peer;

/// One of the two sides of a label's data.
#[derive(Clone, Copy)]
pub enum Side {
    /// What is sent.
    Sent,
    /// What is received.
    Received,
}

/// A bit of a line.
#[derive(Clone, Copy)]
pub enum Bit {
    Word(&'static [u8]),
    /// The name of a label.
    Name(u32),
    /// The name of a kernel.
    Kernel(u32),
    Number(u64),
    /// The number of a rank, as `r_W(N, i + 1)`.
    Rank(Peer),
    /// The condition that the rank is the root.
    Root(Peer),
    /// The role and the index at the other end, or -1 and -1 for all.
    End(Option<Peer>),
    /// The call of a label's `make_` up to the other end.
    Makes(u32),
    /// The rest of that call.
    Made(u32),
    /// The rest of a call of a label's `take_` behind the other end.
    Taken(u32, Side),
    /// A label's buffer, or pointer.
    Buffer(u32, Side),
    /// A label's buffer, count and type.
    Data(u32, Side),
    /// A broadcast's buffer, count and type.
    Shared(u32),
    /// The end of a receive, with the status that it asks for.
    Status(u32),
    /// What is recorded of a message.
    Message(u32, Side),
    /// What is recorded of a collective, where all have words or the root alone has any.
    Joint(u32, Option<Peer>, Side),
}
