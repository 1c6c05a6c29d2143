//! The whole text.

ghost use Rattle.std.specs.Prelude.{◌≡◌, ◌++◌, ◌+◌, ◌≤◌, OnOk, IfOk, length, map, drop, slice_index_or, []};
ghost use Rattle.pb_local.specs.Tree.{program_of};
ghost use Rattle.pb_ctree.specs.Trees.{sum_of};
ghost use Rattle.pb_cprint.specs.Framed.{roles_written, labels_written, head_written, body_written, prelude_written, number_written, numbers_written, make_written, take_written, kernel_written, label_written, behind_label, function_end, words_written, bodies_behind, kernels_written, n_written, size_written, seat_written, seats_written};

use crate::fixed::{
    push_abort_size, push_brace, push_buffers, push_end_brace, push_end_marker,
    push_prelude_marker, push_seat_end, push_title, push_zeros,
};
use crate::frame::{
    push_index_is, push_kernel_head, push_kernel_marker, push_label, push_make_head,
    push_make_marker, push_n_divided, push_n_single, push_place, push_place_head, push_protocol,
    push_range, push_rank, push_role, push_role_is, push_take_head, push_take_marker,
    push_test_size,
};
use pb_ctree::{Body, CoreKernel, CoreLabel, Formula, Local, NRange, NoMemory, Role, has_words};

/// Appends a row for each role.
pub fn push_roles(out: &mut Vec<u8>, roles: &[Role]) -> Result<(), NoMemory>
    ensures { OnOk result (out.new.items ≡ out.old.items ++ roles_written roles.now) }
{
    for role in roles {
        push_role(out, role)?;
    }
    Ok(())
}

/// Appends a row for each label.
pub fn push_labels(out: &mut Vec<u8>, labels: &[CoreLabel]) -> Result<(), NoMemory>
    ensures { OnOk result (out.new.items ≡ out.old.items ++ labels_written labels.now) }
{
    for label in labels {
        push_label(out, label)?;
    }
    Ok(())
}

/// Appends the lines before the prelude: the title, the tables of the program, and the buffers.
#[tactic(auto, unfolding(crate::specs::Framed::head_written))]
pub fn push_head(local: &Local, out: &mut Vec<u8>) -> Result<(), NoMemory>
    ensures { OnOk result (out.new.items ≡ out.old.items ++ head_written (program_of local.now)) }
{
    push_title(out)?;
    push_protocol(out, local)?;
    push_range(out, local.range)?;
    push_roles(out, &local.roles)?;
    push_labels(out, &local.labels)?;
    push_buffers(out)
}

/// Appends the lines of a body.
#[tactic(auto, using(crate::proofs::Bodied::body_same))]
pub fn push_body(out: &mut Vec<u8>, body: &Body) -> Result<(), NoMemory>
    ensures { OnOk result (out.new.items ≡ out.old.items ++ body_written body.now) }
{
    out.extend_from_slice(body.bytes())?;
    Ok(())
}

#[tactic(auto, unfolding(crate::specs::Framed::body_written))]
fn push_body_at(out: &mut Vec<u8>, bodies: &[Body], at: usize) -> Result<(), NoMemory>
    ensures { OnOk result (out.new.items ≡ out.old.items ++ body_written (slice_index_or bodies.now at [])) }
{
    match bodies.get(at) {
        Some(body) => push_body(out, body),
        None => Ok(()),
    }
}

/// Appends the prelude between its two markers.
#[tactic(auto, unfolding(crate::specs::Framed::prelude_written))]
pub fn push_prelude(out: &mut Vec<u8>, prelude: &Body) -> Result<(), NoMemory>
    ensures { OnOk result (out.new.items ≡ out.old.items ++ prelude_written prelude.now) }
{
    push_prelude_marker(out)?;
    push_body(out, prelude)?;
    push_end_marker(out)
}

#[tactic(auto, unfolding(crate::specs::Framed::number_written))]
fn push_number(out: &mut Vec<u8>, role: &Role, place: Formula) -> Result<(), NoMemory>
    ensures { OnOk result (out.new.items ≡ out.old.items ++ number_written role.now (sum_of place)) }
{
    push_place_head(out, role)?;
    push_brace(out)?;
    push_place(out, place)?;
    push_end_brace(out)
}

/// Appends a function for each role, which numbers its ranks. There are as many places as roles.
pub fn push_numbers(out: &mut Vec<u8>, roles: &[Role], places: &[Formula]) -> Result<(), NoMemory>
    requires { length places.now ≡ length roles.now }
    ensures { OnOk result (out.new.items ≡ out.old.items ++ numbers_written roles.now (map sum_of places.now)) }
{
    for (at, role) in roles.iter().enumerate() {
        push_number(out, role, places[at])?;
    }
    Ok(())
}

#[tactic(auto, unfolding(crate::specs::Framed::function_end))]
fn push_function_end(out: &mut Vec<u8>) -> Result<(), NoMemory>
    ensures { OnOk result (out.new.items ≡ out.old.items ++ function_end) }
{
    push_end_marker(out)?;
    push_end_brace(out)
}

#[tactic(auto, unfolding(crate::specs::Framed::make_written))]
fn push_make(
    out: &mut Vec<u8>,
    label: &CoreLabel,
    bodies: &[Body],
    at: usize,
) -> Result<(), NoMemory>
    ensures { OnOk result (out.new.items ≡ out.old.items ++ make_written label.now (slice_index_or bodies.now at [])) }
{
    push_make_head(out, label)?;
    push_brace(out)?;
    push_make_marker(out, label)?;
    push_body_at(out, bodies, at)?;
    push_function_end(out)
}

#[tactic(auto, unfolding(crate::specs::Framed::take_written))]
fn push_take(
    out: &mut Vec<u8>,
    label: &CoreLabel,
    bodies: &[Body],
    at: usize,
) -> Result<(), NoMemory>
    ensures { OnOk result (out.new.items ≡ out.old.items ++ take_written label.now (slice_index_or bodies.now at [])) }
{
    push_take_head(out, label)?;
    push_brace(out)?;
    push_take_marker(out, label)?;
    push_body_at(out, bodies, at)?;
    push_function_end(out)
}

#[tactic(auto, unfolding(crate::specs::Framed::kernel_written))]
fn push_kernel(
    out: &mut Vec<u8>,
    kernel: &CoreKernel,
    bodies: &[Body],
    at: usize,
) -> Result<(), NoMemory>
    ensures { OnOk result (out.new.items ≡ out.old.items ++ kernel_written kernel.now (slice_index_or bodies.now at [])) }
{
    push_kernel_head(out, kernel)?;
    push_brace(out)?;
    push_kernel_marker(out, kernel)?;
    push_body_at(out, bodies, at)?;
    push_function_end(out)
}

/// Appends the two functions of a label with words, whose bodies stand from `at` on, and gives the place behind them.
#[tactic(auto, unfolding(crate::specs::Framed::label_written, crate::specs::Framed::behind_label), using(crate::proofs::Bodied::first_at, crate::proofs::Bodied::others_at))]
fn push_label_functions(
    out: &mut Vec<u8>,
    label: &CoreLabel,
    bodies: &[Body],
    at: usize,
) -> Result<usize, NoMemory>
    requires { at ≤ 1000000 }
    ensures text { OnOk result (out.new.items ≡ out.old.items ++ label_written label.now (drop at bodies.now)) }
    ensures behind { IfOk result (λ next. drop next bodies.now ≡ behind_label label.now (drop at bodies.now)) }
    ensures most { IfOk result (λ next. next ≤ at + 2) }
{
    if !has_words(label.payload) {
        return Ok(at);
    }
    push_make(out, label, bodies, at)?;
    push_take(out, label, bodies, at + 1)?;
    Ok(at + 2)
}

/// Appends the functions of the labels, and gives the place of the first body behind theirs.
pub fn push_words(
    out: &mut Vec<u8>,
    labels: &[CoreLabel],
    bodies: &[Body],
) -> Result<usize, NoMemory>
    requires { length labels.now ≤ 4000 }
    ensures text { OnOk result (out.new.items ≡ out.old.items ++ words_written labels.now bodies.now) }
    ensures behind { IfOk result (λ next. drop next bodies.now ≡ bodies_behind labels.now bodies.now) }
    ensures most { IfOk result (λ next. next ≤ 8000) }
{
    let mut at = 0;
    for label in labels {
        at = push_label_functions(out, label, bodies, at)?;
    }
    Ok(at)
}

/// Appends the functions of at most 4,000 kernels, whose bodies stand from `start` on, which is at most 8,000.
#[tactic(auto, using(crate::proofs::Bodied::first_at, crate::proofs::Bodied::others_at))]
pub fn push_kernels(
    out: &mut Vec<u8>,
    kernels: &[CoreKernel],
    bodies: &[Body],
    start: usize,
) -> Result<(), NoMemory>
    requires few { length kernels.now ≤ 4000 }
    requires start { start ≤ 8000 }
    ensures { OnOk result (out.new.items ≡ out.old.items ++ kernels_written kernels.now (drop start bodies.now)) }
{
    let mut at = start;
    for kernel in kernels {
        push_kernel(out, kernel, bodies, at)?;
        at += 1;
    }
    Ok(())
}

/// The line for N: from the number of ranks, or the one number of the range.
fn push_n(out: &mut Vec<u8>, range: NRange, size: Formula) -> Result<(), NoMemory>
    ensures { OnOk result (out.new.items ≡ out.old.items ++ n_written range (sum_of size)) }
{
    match range.high {
        Some(high) if high == range.low => push_n_single(out, range),
        Some(_) => push_n_divided(out, size),
        None => push_n_divided(out, size),
    }
}

/// Appends the lines that set N, and end the program where it isn't in the range or doesn't fit the number of ranks.
#[tactic(auto, unfolding(crate::specs::Framed::size_written))]
pub fn push_size(out: &mut Vec<u8>, range: NRange, size: Formula) -> Result<(), NoMemory>
    ensures { OnOk result (out.new.items ≡ out.old.items ++ size_written range (sum_of size)) }
{
    push_n(out, range, size)?;
    push_zeros(out)?;
    push_test_size(out, range, size)?;
    push_abort_size(out)
}

#[tactic(auto, unfolding(crate::specs::Framed::seat_written))]
fn push_seat(out: &mut Vec<u8>, role: usize, base: Formula, place: Formula) -> Result<(), NoMemory>
    ensures { OnOk result (out.new.items ≡ out.old.items ++ seat_written role (sum_of base) (sum_of place)) }
{
    push_rank(out, base)?;
    push_role_is(out, role)?;
    push_index_is(out, place)?;
    push_seat_end(out)
}

/// Appends the lines that find the role and the index of a rank. There are as many places as bases, one for each role.
pub fn push_seats(out: &mut Vec<u8>, bases: &[Formula], places: &[Formula]) -> Result<(), NoMemory>
    requires { length places.now ≡ length bases.now }
    ensures { OnOk result (out.new.items ≡ out.old.items ++ seats_written 0 (map sum_of bases.now) (map sum_of places.now)) }
{
    for (role, base) in bases.iter().enumerate() {
        push_seat(out, role, *base, places[role])?;
    }
    Ok(())
}
