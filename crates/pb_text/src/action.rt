use crate::Words;

/// What a collective is known by in a log.
#[derive(Clone, Copy, PartialEq, Eq)]
pub enum Joint {
    Barrier,
    /// The label's number.
    Labelled(u32),
}

/// One action of one rank. Ranks, labels and kernels are given by their numbers.
#[derive(Drop)]
pub enum Action {
    /// The kernel chose the branch with the number `answer`.
    Choose {
        rank: u32,
        kernel: u32,
        answer: u32,
    },
    /// A compute kernel ran.
    Run {
        rank: u32,
        kernel: u32,
    },
    Send {
        rank: u32,
        to: u32,
        label: u32,
        words: Words,
    },
    Recv {
        rank: u32,
        from: u32,
        label: u32,
        words: Words,
    },
    /// The rank entered a collective with its words.
    Enter {
        rank: u32,
        what: Joint,
        words: Words,
    },
    /// The rank left a collective with the words that it got.
    Leave {
        rank: u32,
        what: Joint,
        words: Words,
    },
}
