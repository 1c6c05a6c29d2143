use crate::{Guard, Peer, Relay, Test};

/// A choice up to its branches.
#[derive(Drop)]
pub struct Told {
    pub who: Guard,
    pub kernel: u32,
    pub relays: Vec<Relay>,
    pub from: Peer,
    pub tests: Vec<Test>,
}
