use pb_text::{Name, Names, Place};

/// The names of the subprotocols, and of the parameters of each.
#[derive(Drop)]
pub struct Index {
    pub names: Names,
    pub params: Vec<Names>,
}

/// Where statements stand: the subprotocol that they are of, if they are of one, the roles that its parameters stand for,
/// and the call of the protocol that they come from.
#[derive(Drop)]
pub struct Site {
    pub sub: Option<usize>,
    pub names: Vec<Name>,
    pub root: Option<Place>,
}
