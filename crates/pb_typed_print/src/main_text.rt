//! Main.

ghost use Rattle.std.specs.Prelude.{◌≡◌, ◌++◌, ◌≤◌, OnOk, length};
ghost use Rattle.pb_local.specs.Pieces.{line};
ghost use Rattle.pb_local.specs.Tree.{program_of};
ghost use Rattle.pb_ctree.specs.Trees.{IsTree};
ghost use Rattle.pb_typed.specs.Frame.{main_pieces};
ghost use Rattle.pb_typed.specs.Hooks.{start_hook};
ghost use Rattle.pb_typed.specs.Pieces.{pieces_text};
ghost use Rattle.pb_typed_print.specs.Written.{front_written};

use crate::statements::push_all;
use pb_cprint::{push_finish, push_seats_of, push_size_of, push_start};
use pb_cprint_lines::push_word;
use pb_ctree::{CTree, NoMemory};
use pb_local::{push_indent, push_pieces};
use pb_typed_types::Carried;

/// Appends the recorder's first line.
fn push_start_hook(tree: &CTree, out: &mut Vec<u8>) -> Result<(), NoMemory>
    ensures { OnOk result (out.new.items ≡ out.old.items ++ line 1 (start_hook (program_of tree.now.local))) }
{
    push_indent(out, 1)?;
    push_pieces(
        out,
        &[
            b"PABBLE(start, \"",
            tree.local.protocol.bytes(),
            b"\", rank, size);",
        ],
    )?;
    out.push(b'\n')?;
    Ok(())
}

/// Appends the lines before the statements.
#[tactic(auto, unfolding(crate::specs::Written::front_written))]
fn push_front(tree: &CTree, out: &mut Vec<u8>) -> Result<(), NoMemory>
    requires { IsTree tree.now }
    ensures { OnOk result (out.new.items ≡ out.old.items ++ front_written (program_of tree.now.local)) }
{
    push_start(out)?;
    push_start_hook(tree, out)?;
    push_size_of(tree, out)?;
    push_seats_of(tree, out)
}

/// Appends main, whose statements have what the labels carry.
#[tactic(auto, using(pb_cprint::proofs::Blocks::not_shorter))]
pub fn push_main(tree: &CTree, types: &[Carried], out: &mut Vec<u8>) -> Result<(), NoMemory>
    requires made { IsTree tree.now }
    requires long { 3 ≤ length out.old.items }
    ensures { OnOk result (out.new.items ≡ out.old.items ++ pieces_text (program_of tree.now.local) (main_pieces (program_of tree.now.local) types.now)) }
{
    push_front(tree, out)?;
    push_all(&tree.local.body, &tree.local, types, 1, out)?;
    push_word(out, 1, b"PABBLE(end);")?;
    push_finish(out)
}
