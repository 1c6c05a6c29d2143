//! The whole text.

ghost use Rattle.std.specs.Prelude.{◌≡◌, ◌++◌, OnOk, IfOk, length};
ghost use Rattle.pb_local.specs.Tree.{program_of};
ghost use Rattle.pb_ctree.specs.Trees.{IsTree};
ghost use Rattle.pb_typed.specs.Functions.{typed_functions};
ghost use Rattle.pb_typed.specs.Texts.{IsProgramText};
ghost use Rattle.pb_typed_print.specs.Written.{before_main};

use crate::main_text::push_main;
use pb_cprint::{push_places, push_prelude};
use pb_ctree::{Bodies, CTree, NoMemory};
use pb_typed_frame::{push_functions, push_head};
use pb_typed_types::Types;
use std::alloc::Global;

/// Appends the lines before main.
fn push_before_main(
    tree: &CTree,
    types: &Types,
    bodies: &Bodies,
    out: &mut Vec<u8>,
) -> Result<(), NoMemory>
    requires { IsTree tree.now }
    ensures { OnOk result (out.new.items ≡ out.old.items ++ before_main (program_of tree.now.local) types.now bodies.now.prelude bodies.now.list.items) }
{
    push_head(&tree.local, types, out)?;
    push_prelude(out, &bodies.prelude)?;
    push_places(tree, out)?;
    push_functions(tree, &types.labels, &bodies.list, out)
}

/// The program text of a well-made tree with these types and bodies: `docs/PROGRAM-TEXT.md` has it whole. It takes time and memory
/// linear in the text.
pub fn print_program(
    alloc: Global,
    tree: &CTree,
    types: &Types,
    bodies: &Bodies,
) -> Result<Vec<u8>, NoMemory>
    requires made { IsTree tree.now }
    requires many { length bodies.now.list.items ≡ length (typed_functions (program_of tree.now.local) types.now.labels.items) }
    ensures { IfOk result (λ bytes. IsProgramText tree.now types.now bodies.now bytes.items) }
{
    let mut out = Vec::new(alloc);
    push_before_main(tree, types, bodies, &mut out)?;
    push_main(tree, &types.labels, &mut out)?;
    Ok(out)
}
