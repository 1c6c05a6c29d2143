//! Roles, loops and variables that are never used.

use crate::uses::{continues_in, items_use, seats_in};
use pb_explain_source::{Page, Part};
use pb_syntax::{Block, FileTree, RoleText};
use pb_text::{NoMemory, Spot};

/// Writes a warning on a loop that nothing continues.
pub fn warn_loop(page: &mut Page, name: &Spot, body: &Block) -> Result<(), NoMemory> {
    if continues_in(body, &name.name) {
        return Ok(());
    }
    page.warn(
        name.place,
        &[
            Part::Text("nothing continues the loop `"),
            Part::Name(&name.name),
            Part::Text("`, so its body is done once"),
        ],
    )?;
    page.help(&[
        Part::Text("write `continue "),
        Part::Name(&name.name),
        Part::Text(";` where it goes round, or leave the `rec` out"),
    ])
}

/// Writes a warning on a `foreach` whose items don't use its variable.
pub fn warn_variable(page: &mut Page, variable: &Spot, items: &Block) -> Result<(), NoMemory> {
    if items_use(items, &variable.name) {
        return Ok(());
    }
    page.warn(
        variable.place,
        &[
            Part::Text("no end in this `foreach` has its variable `"),
            Part::Name(&variable.name),
            Part::Text("`, so the same ranks do the same each time"),
        ],
    )?;
    page.help(&[
        Part::Text("write it in an index, as `["),
        Part::Name(&variable.name),
        Part::Text("]`, or leave the `foreach` out"),
    ])
}

/// Writes a warning on a role that does nothing.
pub fn warn_role(page: &mut Page, file: &FileTree, role: &RoleText) -> Result<(), NoMemory> {
    if seats_in(&file.body, &role.role.name) {
        return Ok(());
    }
    page.warn(
        role.role.place,
        &[
            Part::Text("nothing is done by the role `"),
            Part::Name(&role.role.name),
            Part::Text("`: its ranks start and end"),
        ],
    )?;
    page.help(&[Part::Text("use it in a message, or leave it out")])
}
