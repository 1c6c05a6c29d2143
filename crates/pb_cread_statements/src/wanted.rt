use crate::told::Told;
use crate::{Guard, Guards, Op, Peer, Relay};

/// What was read of a statement that is half spelled, and so which lines may come next.
#[derive(Drop)]
pub enum Wanted {
    /// No statement is half spelled: a statement may begin, or a part end.
    Statement,
    /// The words of a label were made.
    Made {
        label: u32,
    },
    /// The root of a broadcast made its words.
    Rooted {
        label: u32,
        root: Peer,
    },
    /// The broadcast is done, and its words are to be taken.
    Cast {
        label: u32,
        root: Peer,
    },
    Reduced {
        label: u32,
        op: Op,
        root: Peer,
    },
    Allreduced {
        label: u32,
        op: Op,
    },
    Received {
        label: u32,
        from: Peer,
    },
    /// The chooser's call was read.
    Chosen {
        who: Guard,
        kernel: u32,
    },
    /// And the brace behind which all others ask.
    Asked {
        who: Guard,
        kernel: u32,
    },
    /// The guards of a relay, whose probe comes next.
    Relaying {
        who: Guard,
        kernel: u32,
        relays: Vec<Relay>,
        guards: Guards,
    },
    Relayed {
        who: Guard,
        kernel: u32,
        relays: Vec<Relay>,
    },
    /// All relays, and the brace behind which the source is probed.
    Sourced {
        who: Guard,
        kernel: u32,
        relays: Vec<Relay>,
    },
    Probed {
        who: Guard,
        kernel: u32,
        relays: Vec<Relay>,
        from: Peer,
    },
    /// All probes, and no test yet.
    Untested {
        who: Guard,
        kernel: u32,
        relays: Vec<Relay>,
        from: Peer,
    },
    /// A test, whose branch comes next.
    Testing {
        told: Told,
        label: u32,
        guards: Guards,
    },
    Tested {
        told: Told,
    },
    Aborting {
        told: Told,
    },
    Aborted {
        told: Told,
    },
    AllTested {
        told: Told,
    },
    /// Everything up to the first branch.
    Answered {
        told: Told,
    },
}
