//! The rules that the lines of the tables keep.

ghost use Rattle.std.specs.Prelude.{◌≡◌, ◌≤◌, pos, length};
ghost use Rattle.std.specs.List.{All};
ghost use Rattle.pb_affine.specs.Values.{value};
ghost use Rattle.pb_ctree.specs.Rules.{is_number, is_upper_end, is_range, is_offset, is_var, has_index_at, goes_on, has_index_above, has_index, is_among, is_role, is_single, has_size, is_payload, is_label_row, is_kernel_row};
ghost use Rattle.pb_ctree.specs.Sums.{HasSmallEnds};
ghost use Rattle.pb_cread_rows.specs.Spelled.{names_of_roles, names_of_labels, names_of_kernels, tables, has_fixed_ends};

use crate::names::is_name;
use crate::sums::ranks;
use pb_ctree::{Base, CoreKernel, CoreLabel, Lin, NRange, Name, Payload, Role};
use pb_text::{LEAST_OFFSET, MOST_NUMBER, MOST_OFFSET, Names};

fn is_number(n: u32) -> bool
    ensures { result ≡ is_number n }
{
    n <= MOST_NUMBER
}

fn is_upper_end(low: u32, high: Option<u32>) -> bool
    ensures { result ≡ is_upper_end low high }
{
    match high {
        None => true,
        Some(high) => low <= high && is_number(high),
    }
}

/// Whether the low end is from 1 to 2,000,000,000, and the high end, if there is one, from the low end to 2,000,000,000.
pub fn is_range(range: NRange) -> bool
    ensures { result ≡ is_range range }
{
    1 <= range.low && is_number(range.low) && is_upper_end(range.low, range.high)
}

fn is_offset(off: i32) -> bool
    ensures { result ≡ is_offset off }
{
    LEAST_OFFSET <= off && off <= MOST_OFFSET
}

fn is_var(base: Base) -> bool
    ensures { result ≡ is_var base }
{
    match base {
        Base::Fixed => false,
        Base::Param => false,
        Base::Var => true,
    }
}

fn value(lin: Lin, n: u32) -> i64
    ensures { result ≡ value lin (pos n) (pos 0) }
{
    let off = i64::from(lin.off);
    match lin.base {
        Base::Fixed => off,
        Base::Param => off + i64::from(n),
        Base::Var => off,
    }
}

fn has_index_at(n: u32, role: &Role) -> bool
    ensures { result ≡ has_index_at n role.now }
{
    value(role.low, n) <= value(role.high, n)
}

fn goes_on(low: Base, high: Base) -> bool
    ensures { result ≡ goes_on low high }
{
    match (low, high) {
        (Base::Param, Base::Fixed) => false,
        (Base::Param, Base::Param) => true,
        (Base::Param, Base::Var) => true,
        (Base::Fixed, _) => true,
        (Base::Var, _) => true,
    }
}

fn has_index_above(high: Option<u32>, role: &Role) -> bool
    ensures { result ≡ has_index_above high role.now }
{
    match high {
        None => goes_on(role.low.base, role.high.base),
        Some(high) => has_index_at(high, role),
    }
}

fn has_index(range: NRange, role: &Role) -> bool
    ensures { result ≡ has_index range role.now }
{
    has_index_at(range.low, role) && has_index_above(range.high, role)
}

#[tactic(auto, using(crate::proofs::Found::found_among))]
fn is_among(name: &Name, names: &Names) -> bool
    ensures { result ≡ is_among name.now names.now }
{
    names.find(name).is_some()
}

fn has_fixed_ends(role: &Role) -> bool
    ensures { result ≡ has_fixed_ends role.now }
{
    is_offset(role.low.off)
        && is_offset(role.high.off)
        && !is_var(role.low.base)
        && !is_var(role.high.base)
}

/// Whether a role may stand behind the roles before and their names: it is named as none of them, it is one of at most 64,
/// its ends are numbers or N, with offsets from -1,000,000 to 1,000,000, and it has an index for each N of the range.
#[tactic(auto, using(crate::proofs::RuleParts::role_is, crate::proofs::RuleParts::names_long))]
pub fn is_role(range: NRange, before: &[Role], names: &Names, role: &Role) -> bool
    requires names { names.now ≡ names_of_roles before.now }
    ensures { result ≡ is_role range (names_of_roles before.now) role.now }
{
    is_name(role.name.bytes())
        && !is_among(&role.name, names)
        && before.len() < 64
        && has_fixed_ends(role)
        && has_index(range, role)
}

fn is_single(range: NRange) -> bool
    ensures { result ≡ is_single range }
{
    match range.high {
        None => false,
        Some(high) => high == range.low,
    }
}

/// Whether there is a role, and the number of ranks grows with N or there is one N alone. There are at most 64 roles.
pub fn has_size(range: NRange, roles: &[Role]) -> bool
    requires few { length roles.now ≤ 64 }
    requires small { All HasSmallEnds roles.now }
    ensures { result ≡ has_size (tables range roles.now) }
{
    !roles.is_empty() && (1 <= ranks(roles).a || is_single(range))
}

fn is_payload(payload: Payload) -> bool
    ensures { result ≡ is_payload payload }
{
    match payload {
        Payload::Unit => true,
        Payload::Int32(count) => 1 <= count && count <= 1024,
        Payload::Uint32(count) => 1 <= count && count <= 1024,
    }
}

/// Whether a label may stand behind the labels before and their names: it is named as none of them, it is one of at most
/// 4,000, and it has no words or from 1 to 1,024.
#[tactic(auto, using(crate::proofs::RuleParts::labels_long))]
pub fn is_label_row(before: &[CoreLabel], names: &Names, label: &CoreLabel) -> bool
    requires names { names.now ≡ names_of_labels before.now }
    ensures { result ≡ is_label_row (names_of_labels before.now) label.now }
{
    is_name(label.name.bytes())
        && !is_among(&label.name, names)
        && before.len() < 4000
        && is_payload(label.payload)
}

/// Whether a kernel may stand behind the kernels before and their names: it is named as none of them, and it is one of at
/// most 4,000.
#[tactic(auto, using(crate::proofs::RuleParts::kernels_long))]
pub fn is_kernel_row(before: &[CoreKernel], names: &Names, kernel: &CoreKernel) -> bool
    requires names { names.now ≡ names_of_kernels before.now }
    ensures { result ≡ is_kernel_row (names_of_kernels before.now) kernel.now }
{
    is_name(kernel.name.bytes()) && !is_among(&kernel.name, names) && before.len() < 4000
}
