ghost use Rattle.std.specs.Prelude.{◌≤◌, vec_len};

use pb_syntax::RoleText;

/// The roles of the flat file so far.
#[derive(Drop)]
pub struct RoleList {
    pub list: Vec<RoleText>,
    ghost few: { vec_len list ≤ 64 },
}
