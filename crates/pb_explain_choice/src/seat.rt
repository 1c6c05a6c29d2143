//! One rank at one N.

use pb_explain_ranks::{Bound, Setting};
use pb_explain_tree::is_same;
use pb_syntax::End;
use pb_text::Name;

/// A rank at one N.
#[derive(Clone, Copy)]
pub struct Seat<'a> {
    pub setting: Setting<'a>,
    pub role: Name,
    pub index: i64,
}

impl<'a> Seat<'a> {
    /// Whether an end is this rank, where a variable is bound.
    pub fn is(&self, end: &End, bound: Option<&Bound>) -> bool {
        is_same(&end.role.name, &self.role) && self.setting.index(end, bound) == Some(self.index)
    }
}
