use pb_strips_syntax::Col;
use pb_text::{Name, Spot};

/// The `columns` around an end: its variable, and the least and the greatest value of that.
#[derive(Clone, Copy)]
pub struct Around {
    pub var: Name,
    pub low: u32,
    pub high: u32,
}

/// What counts of an end: the role's name, its column, and the `columns` around it.
#[derive(Drop)]
pub struct EndSite {
    pub role: Spot,
    pub col: Option<Col>,
    pub around: Option<Around>,
}
