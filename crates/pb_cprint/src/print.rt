ghost use Rattle.std.specs.Prelude.{◌≡◌, ◌++◌, ◌≤◌, OnOk, IfOk, length};
ghost use Rattle.pb_local.specs.Ranks.{ranks_of, bases_of, places_of};
ghost use Rattle.pb_local.specs.Tree.{program_of};
ghost use Rattle.pb_ctree.specs.Functions.{functions_of};
ghost use Rattle.pb_ctree.specs.Texts.{Spells};
ghost use Rattle.pb_ctree.specs.Trees.{IsTree};
ghost use Rattle.pb_cprint.specs.Framed.{before_main, functions_written, numbers_written, size_written, seats_written, main_written};

use crate::fixed::{push_finish, push_start};
use crate::statements::push_all;
use crate::text::{
    push_head, push_kernels, push_numbers, push_prelude, push_seats, push_size, push_words,
};
use pb_ctree::{Bodies, Body, CTree, NoMemory};
use std::alloc::Global;

/// Appends the functions that number the ranks of a well-made tree.
#[tactic(auto, using(crate::proofs::Trees::places_many, crate::proofs::Trees::places_are))]
pub fn push_places(tree: &CTree, out: &mut Vec<u8>) -> Result<(), NoMemory>
    requires { IsTree tree.now }
    ensures { OnOk result (out.new.items ≡ out.old.items ++ numbers_written tree.now.local.roles.items (places_of tree.now.local.roles.items)) }
{
    push_numbers(out, &tree.local.roles, &tree.places)
}

#[tactic(auto, unfolding(crate::specs::Framed::functions_written), using(crate::proofs::Trees::few_labels, crate::proofs::Trees::few_kernels))]
fn push_functions(tree: &CTree, bodies: &[Body], out: &mut Vec<u8>) -> Result<(), NoMemory>
    requires { IsTree tree.now }
    ensures { OnOk result (out.new.items ≡ out.old.items ++ functions_written (program_of tree.now.local) bodies.now) }
{
    let start = push_words(out, &tree.local.labels, bodies)?;
    push_kernels(out, &tree.local.kernels, bodies, start)
}

#[tactic(auto, unfolding(crate::specs::Framed::before_main))]
fn push_before_main(tree: &CTree, bodies: &Bodies, out: &mut Vec<u8>) -> Result<(), NoMemory>
    requires { IsTree tree.now }
    ensures { OnOk result (out.new.items ≡ out.old.items ++ before_main (program_of tree.now.local) bodies.now.prelude bodies.now.list.items) }
{
    push_head(&tree.local, out)?;
    push_prelude(out, &bodies.prelude)?;
    push_places(tree, out)?;
    push_functions(tree, &bodies.list, out)
}

/// Appends the lines that set N from the number of ranks.
#[tactic(auto, using(crate::proofs::Trees::size_are))]
pub fn push_size_of(tree: &CTree, out: &mut Vec<u8>) -> Result<(), NoMemory>
    requires { IsTree tree.now }
    ensures { OnOk result (out.new.items ≡ out.old.items ++ size_written tree.now.local.range (ranks_of tree.now.local.roles.items)) }
{
    push_size(out, tree.local.range, tree.size)
}

/// Appends the lines that find a rank's role and index.
#[tactic(auto, using(crate::proofs::Trees::seats_many, crate::proofs::Trees::places_are, crate::proofs::Trees::bases_are))]
pub fn push_seats_of(tree: &CTree, out: &mut Vec<u8>) -> Result<(), NoMemory>
    requires { IsTree tree.now }
    ensures { OnOk result (out.new.items ≡ out.old.items ++ seats_written 0 (bases_of tree.now.local.roles.items) (places_of tree.now.local.roles.items)) }
{
    push_seats(out, &tree.bases, &tree.places)
}

#[tactic(auto, unfolding(crate::specs::Framed::main_written), using(crate::proofs::Blocks::not_shorter))]
fn push_main(tree: &CTree, out: &mut Vec<u8>) -> Result<(), NoMemory>
    requires made { IsTree tree.now }
    requires long { 3 ≤ length out.old.items }
    ensures { OnOk result (out.new.items ≡ out.old.items ++ main_written (program_of tree.now.local)) }
{
    push_start(out)?;
    push_size_of(tree, out)?;
    push_seats_of(tree, out)?;
    push_all(&tree.local.body, &tree.local, 1, out)?;
    push_finish(out)
}

/// The one text that spells the tree with these bodies: `docs/FORMATS.md` has it whole. It takes time and memory linear
/// in the text.
pub fn print_c(alloc: Global, tree: &CTree, bodies: &Bodies) -> Result<Vec<u8>, NoMemory>
    requires made { IsTree tree.now }
    requires many { length bodies.now.list.items ≡ length (functions_of (program_of tree.now.local)) }
    ensures { IfOk result (λ bytes. Spells tree.now bodies.now bytes.items) }
{
    let mut out = Vec::new(alloc);
    push_before_main(tree, bodies, &mut out)?;
    push_main(tree, &mut out)?;
    Ok(out)
}
