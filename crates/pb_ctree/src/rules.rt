//! Whether the parts of a text's lines keep their rules.

ghost use Rattle.std.specs.Prelude.{◌≡◌};
ghost use Rattle.std.specs.List.{list_all};
ghost use Rattle.pb_local.specs.Tree.{program_of};
ghost use Rattle.pb_ctree.specs.Rules.{is_number, is_offset, is_var, is_small_if, is_number_if, is_guard, are_guards, is_peer, is_label, is_wordy, goes_with, is_choice_kind, computes, can_choose, is_one, is_chooser, are_below};

use crate::kernels::has_words;
use crate::{Base, Guard, KernelKind, Lin, Local, Op, Payload, Peer, Test};
use pb_local::is_same_lin;
use pb_text::{LEAST_OFFSET, MOST_NUMBER, MOST_OFFSET};

fn is_number(n: u32) -> bool
    ensures { result ≡ is_number n }
{
    n <= MOST_NUMBER
}

/// Whether an offset lies within its bounds: from -1,000,000 to 1,000,000.
pub fn is_offset(off: i32) -> bool
    ensures { result ≡ is_offset off }
{
    LEAST_OFFSET <= off && off <= MOST_OFFSET
}

fn is_var(base: Base) -> bool
    ensures { result ≡ is_var base }
{
    match base {
        Base::Fixed | Base::Param => false,
        Base::Var => true,
    }
}

fn is_small_if(lin: Option<Lin>) -> bool
    ensures { result ≡ is_small_if lin }
{
    match lin {
        None => true,
        Some(lin) => is_offset(lin.off),
    }
}

fn is_number_if(n: Option<u32>) -> bool
    ensures { result ≡ is_number_if n }
{
    match n {
        None => true,
        Some(n) => is_number(n),
    }
}

/// Whether a guard's role is there, its offsets lie within their bounds, and its bounds on N are at most 2,000,000,000.
pub fn is_guard(local: &Local, guard: Guard) -> bool
    ensures { result ≡ is_guard (program_of local.now) guard }
{
    (guard.role as usize) < local.roles.len()
        && is_small_if(guard.low)
        && is_small_if(guard.high)
        && is_number_if(guard.from)
        && is_number_if(guard.to)
}

fn all_guards(local: &Local, guards: &[Guard]) -> bool
    ensures { result ≡ list_all (is_guard (program_of local.now)) guards.now }
{
    guards.iter().all(|guard| is_guard(local, *guard))
}

/// Whether there is a guard, and each keeps its rule.
pub fn are_guards(local: &Local, guards: &[Guard]) -> bool
    ensures { result ≡ are_guards (program_of local.now) guards.now }
{
    match guards {
        [] => false,
        [first, others @ ..] => is_guard(local, *first) && all_guards(local, others),
    }
}

/// Whether a peer's role is there, and its offset lies within its bounds.
pub fn is_peer(local: &Local, peer: Peer) -> bool
    ensures { result ≡ is_peer (program_of local.now) peer }
{
    (peer.role as usize) < local.roles.len() && is_offset(peer.at.off)
}

/// Whether the label is there.
pub fn is_label(local: &Local, label: u32) -> bool
    ensures { result ≡ is_label (program_of local.now) label }
{
    (label as usize) < local.labels.len()
}

/// Whether the label has words; a label that is not there has none.
pub fn is_wordy(local: &Local, label: u32) -> bool
    ensures { result ≡ is_wordy (program_of local.now) label }
{
    has_words(local.payload(label))
}

/// Whether the operation goes with the payload: a sum with unsigned words, any other with words.
pub fn goes_with(op: Op, payload: Payload) -> bool
    ensures { result ≡ goes_with op payload }
{
    match op {
        Op::Sum => match payload {
            Payload::Unit | Payload::Int32(_) => false,
            Payload::Uint32(_) => true,
        },
        Op::Min | Op::Max => has_words(payload),
    }
}

fn is_choice_kind(kind: KernelKind) -> bool
    ensures { result ≡ is_choice_kind kind }
{
    match kind {
        KernelKind::Compute => false,
        KernelKind::Choice => true,
    }
}

/// Whether the kernel is there and computes.
pub fn computes(local: &Local, kernel: u32) -> bool
    ensures { result ≡ computes (program_of local.now) kernel }
{
    match local.kernels.get(kernel as usize) {
        Some(kernel) => !is_choice_kind(kernel.kind),
        None => false,
    }
}

/// Whether the kernel is there and chooses.
pub fn can_choose(local: &Local, kernel: u32) -> bool
    ensures { result ≡ can_choose (program_of local.now) kernel }
{
    match local.kernels.get(kernel as usize) {
        Some(kernel) => is_choice_kind(kernel.kind),
        None => false,
    }
}

fn is_one(low: Option<Lin>, high: Option<Lin>) -> bool
    ensures { result ≡ is_one low high }
{
    match (low, high) {
        (Some(low), Some(high)) => is_same_lin(low, high) && !is_var(low.base),
        (Some(_), None) | (None, _) => false,
    }
}

/// Whether a guard holds of one rank of one role, for every N.
pub fn is_chooser(guard: Guard) -> bool
    ensures { result ≡ is_chooser guard }
{
    is_one(guard.low, guard.high) && guard.from.is_none() && guard.to.is_none()
}

/// Whether all tests name branches below this one.
pub fn are_below(tests: &[Test], branch: usize) -> bool
    ensures { result ≡ are_below tests.now branch }
{
    tests.iter().all(|test| (test.branch as usize) < branch)
}
