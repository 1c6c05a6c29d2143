ghost use Rattle.std.specs.Prelude.{◌<◌, ◌^◌, length};

use pb_core_file_rules::NameTable;
use pb_syntax::RoleText;
use pb_text::Name;

/// What the names of a file are.
#[derive(Clone, Copy)]
pub struct Tables<'a> {
    pub constant: &'a Name,
    pub roles: &'a [RoleText],
    pub labels: &'a NameTable,
    pub kernels: &'a NameTable,
    ghost few: { length roles.now < 2 ^ 32 },
}
