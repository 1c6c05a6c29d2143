use crate::site::Site;

/// A call that is under way: the subprotocol whose statements it is at, and the position of the next one.
#[derive(Drop)]
pub struct Frame {
    pub site: Site,
    pub body: usize,
    pub next: usize,
}
