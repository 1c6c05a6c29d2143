//! The functions of labels and kernels, with their bodies.

ghost use Rattle.std.specs.Prelude.{◌≡◌, ◌++◌, ◌+◌, ◌≤◌, [], OnOk, IfOk, drop, length};
ghost use Rattle.pb_local.specs.Tree.{program_of};
ghost use Rattle.pb_ctree.specs.Frame.{first_body, other_bodies};
ghost use Rattle.pb_ctree.specs.Functions.{has_words};
ghost use Rattle.pb_ctree.specs.Trees.{IsTree};
ghost use Rattle.pb_types.specs.declared.carried.Carried.TheVariants.{Open};
ghost use Rattle.pb_typed.specs.Frame.{make_pieces, take_pieces, room_pieces, label_pieces, functions_after};
ghost use Rattle.pb_typed.specs.Pieces.{pieces_text};
ghost use Rattle.pb_typed_frame.specs.Functions.{behind_of, pieces_of_label, labels_pieces, behind_labels};
ghost use Rattle.pb_cprint.specs.Framed.{body_written, function_end};

use crate::heads::{push_make_head, push_room_head, push_room_marker, push_take_head};
use crate::labels::carried_of;
use pb_cprint::{
    push_body, push_brace, push_end_brace, push_end_marker, push_kernels, push_make_marker,
    push_take_marker,
};
use pb_ctree::{Body, CTree, CoreLabel, Local, has_words};
use pb_text::NoMemory;
use pb_typed_types::Carried;
use pb_types::Element;

#[tactic(auto, using(pb_cprint::proofs::Bodied::first_at), unfolding(pb_cprint::specs::Framed::body_written))]
fn push_body_at(out: &mut Vec<u8>, bodies: &[Body], at: usize) -> Result<(), NoMemory>
    ensures { OnOk result (out.new.items ≡ out.old.items ++ body_written (first_body (drop at bodies.now))) }
{
    match bodies.get(at) {
        Some(body) => push_body(out, body),
        None => Ok(()),
    }
}

#[tactic(auto, unfolding(pb_cprint::specs::Framed::function_end))]
fn push_function_end(out: &mut Vec<u8>) -> Result<(), NoMemory>
    ensures { OnOk result (out.new.items ≡ out.old.items ++ function_end) }
{
    push_end_marker(out)?;
    push_end_brace(out)
}

fn push_make(
    local: &Local,
    out: &mut Vec<u8>,
    label: &CoreLabel,
    carried: Carried,
    bodies: &[Body],
    at: usize,
) -> Result<(), NoMemory>
    ensures { OnOk result (out.new.items ≡ out.old.items ++ pieces_text (program_of local.now) (make_pieces carried label.now (first_body (drop at bodies.now)))) }
{
    push_make_head(out, label, carried)?;
    push_brace(out)?;
    push_make_marker(out, label)?;
    push_body_at(out, bodies, at)?;
    push_function_end(out)?;
    Ok(())
}

fn push_room(
    local: &Local,
    out: &mut Vec<u8>,
    label: &CoreLabel,
    element: Element,
    bodies: &[Body],
    at: usize,
) -> Result<(), NoMemory>
    ensures { OnOk result (out.new.items ≡ out.old.items ++ pieces_text (program_of local.now) (room_pieces element label.now (first_body (drop at bodies.now)))) }
{
    push_room_head(out, label, element)?;
    push_brace(out)?;
    push_room_marker(out, label)?;
    push_body_at(out, bodies, at)?;
    push_function_end(out)?;
    Ok(())
}

fn push_take(
    local: &Local,
    out: &mut Vec<u8>,
    label: &CoreLabel,
    carried: Carried,
    bodies: &[Body],
    at: usize,
) -> Result<(), NoMemory>
    ensures { OnOk result (out.new.items ≡ out.old.items ++ pieces_text (program_of local.now) (take_pieces carried label.now (first_body (drop at bodies.now)))) }
{
    push_take_head(out, label, carried)?;
    push_brace(out)?;
    push_take_marker(out, label)?;
    push_body_at(out, bodies, at)?;
    push_function_end(out)?;
    Ok(())
}

/// The functions that make and take what a label carries, in buffers of the text.
#[tactic(auto, using(pb_cprint::proofs::Bodied::others_at))]
fn push_two(
    local: &Local,
    out: &mut Vec<u8>,
    label: &CoreLabel,
    carried: Carried,
    bodies: &[Body],
    at: usize,
) -> Result<usize, NoMemory>
    requires { at ≤ 1000000 }
    ensures text { OnOk result (out.new.items ≡ out.old.items ++ pieces_text (program_of local.now) (make_pieces carried label.now (first_body (drop at bodies.now)) ++ take_pieces carried label.now (first_body (other_bodies (drop at bodies.now))))) }
    ensures behind { IfOk result (λ next. drop next bodies.now ≡ other_bodies (other_bodies (drop at bodies.now))) }
    ensures most { IfOk result (λ next. next ≤ at + 3) }
{
    push_make(local, out, label, carried, bodies, at)?;
    push_take(local, out, label, carried, bodies, at + 1)?;
    Ok(at + 2)
}

/// The functions of a label with an open count.
#[tactic(auto, using(pb_cprint::proofs::Bodied::others_at))]
fn push_three(
    local: &Local,
    out: &mut Vec<u8>,
    label: &CoreLabel,
    element: Element,
    bodies: &[Body],
    at: usize,
) -> Result<usize, NoMemory>
    requires { at ≤ 1000000 }
    ensures text { OnOk result (out.new.items ≡ out.old.items ++ pieces_text (program_of local.now) (label_pieces (Open element) label.now (drop at bodies.now))) }
    ensures behind { IfOk result (λ next. drop next bodies.now ≡ other_bodies (other_bodies (other_bodies (drop at bodies.now)))) }
    ensures most { IfOk result (λ next. next ≤ at + 3) }
{
    let carried = Carried::Open { element };
    push_make(local, out, label, carried, bodies, at)?;
    push_room(local, out, label, element, bodies, at + 1)?;
    push_take(local, out, label, carried, bodies, at + 2)?;
    Ok(at + 3)
}

/// The functions of a label, whose bodies stand from `at` on; gives the place behind them.
fn push_label(
    local: &Local,
    out: &mut Vec<u8>,
    label: &CoreLabel,
    carried: Carried,
    bodies: &[Body],
    at: usize,
) -> Result<usize, NoMemory>
    requires { at ≤ 1000000 }
    ensures text { OnOk result (out.new.items ≡ out.old.items ++ pieces_text (program_of local.now) (pieces_of_label label.now carried (drop at bodies.now))) }
    ensures behind { IfOk result (λ next. drop next bodies.now ≡ behind_of label.now carried (drop at bodies.now)) }
    ensures most { IfOk result (λ next. next ≤ at + 3) }
{
    if !has_words(label.payload) {
        return Ok(at);
    }
    match carried {
        Carried::Words => push_two(local, out, label, carried, bodies, at),
        Carried::Fixed { .. } => push_two(local, out, label, carried, bodies, at),
        Carried::Open { element } => push_three(local, out, label, element, bodies, at),
    }
}

/// The functions of the labels; gives the place behind their bodies.
fn push_labels(
    local: &Local,
    out: &mut Vec<u8>,
    labels: &[CoreLabel],
    types: &[Carried],
    bodies: &[Body],
) -> Result<usize, NoMemory>
    requires { length labels.now ≤ 4000 }
    ensures text { OnOk result (out.new.items ≡ out.old.items ++ pieces_text (program_of local.now) (labels_pieces labels.now types.now bodies.now)) }
    ensures behind { IfOk result (λ next. drop next bodies.now ≡ behind_labels labels.now types.now bodies.now) }
{
    let mut at = 0;
    for (number, label) in labels.iter().enumerate() {
        at = push_label(local, out, label, carried_of(types, number), bodies, at)?;
    }
    Ok(at)
}

/// The bodies from a place on.
fn rest_of(bodies: &[Body], at: usize) -> &[Body]
    ensures { result.now ≡ drop at bodies.now }
{
    match bodies.get(at..) {
        Some(rest) => rest,
        None => &[],
    }
}

/// Appends the functions of labels and kernels, with their bodies.
pub fn push_functions(
    tree: &CTree,
    types: &[Carried],
    bodies: &[Body],
    out: &mut Vec<u8>,
) -> Result<(), NoMemory>
    requires { IsTree tree.now }
    ensures { OnOk result (out.new.items ≡ out.old.items ++ pieces_text (program_of tree.now.local) (functions_after tree.now.local.labels.items types.now tree.now.local.kernels.items bodies.now)) }
{
    let at = push_labels(&tree.local, out, &tree.local.labels, types, bodies)?;
    push_kernels(out, &tree.local.kernels, rest_of(bodies, at), 0)?;
    Ok(())
}
