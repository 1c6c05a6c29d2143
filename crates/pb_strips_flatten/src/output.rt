use crate::count::Count;
use pb_syntax::{Block, Statement};

/// The statements of a block so far.
#[derive(Drop)]
pub struct Output {
    pub list: Vec<Statement>,
    pub count: Count,
}

/// The branches of a choice so far.
#[derive(Drop)]
pub struct Offer {
    pub list: Vec<Block>,
    pub count: Count,
}
