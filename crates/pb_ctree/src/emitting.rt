ghost use Rattle.std.specs.Prelude.{◌≡◌, ◌++◌, ◌∷◌, [], ◌≤◌, ℕ, pos, ◌+ℤ◌, ◌-ℤ◌, ◌≤ℤ◌, OnOk, IfOk, map, length};
ghost use Rattle.std.specs.List.{All};
ghost use Rattle.pb_affine.specs.Values.{IsSmall};
ghost use Rattle.pb_local.specs.Ranks.{factor, with_role, without_low, ranks_of, bases_of, places_of};
ghost use Rattle.pb_local.specs.Tree.{program_of};
ghost use Rattle.pb_local.specs.WellMade.{IsWellMade, IsInRange};
ghost use Rattle.pb_ctree.specs.Sums.{HasSmallEnds, HasRoom, IsWide};
ghost use Rattle.pb_ctree.specs.Trees.{sum_of, IsTree, NumbersRanks};

use crate::{Base, CTree, Formula, Local, NoMemory, Role};
use std::alloc::Global;

fn factor(base: Base) -> i64
    ensures value { result ≡ factor base }
    ensures low { pos 0 ≤ℤ result }
    ensures high { result ≤ℤ pos 1 }
{
    match base {
        Base::Fixed => 0,
        Base::Param => 1,
        Base::Var => 0,
    }
}

fn sum(a: i64, b: i64) -> i64
    requires a { IsWide a }
    requires b { IsWide b }
    ensures { result ≡ a +ℤ b }
{
    a + b
}

fn difference(a: i64, b: i64) -> i64
    requires a { IsWide a }
    requires b { IsWide b }
    ensures { result ≡ a -ℤ b }
{
    a - b
}

impl Formula {
    fn a_with(self, role: &Role) -> i64
        requires room { HasRoom self }
        ensures { result ≡ (with_role (sum_of self) role.now).a }
    {
        let a = sum(self.a, factor(role.high.base));
        difference(a, factor(role.low.base))
    }

    fn b_above(self, role: &Role) -> i64
        requires room { HasRoom self }
        requires small { HasSmallEnds role.now }
        ensures value { result ≡ self.b +ℤ role.now.high.off -ℤ role.now.low.off }
        ensures wide { IsWide result }
    {
        let b = sum(self.b, i64::from(role.high.off));
        difference(b, i64::from(role.low.off))
    }

    /// The sum with the number of this role's ranks added.
    pub fn with_role(self, role: &Role) -> Formula
        requires room { HasRoom self }
        requires small { HasSmallEnds role.now }
        ensures { sum_of result ≡ with_role (sum_of self) role.now }
    {
        let a = self.a_with(role);
        let b = sum(self.b_above(role), 1);
        Formula { a, b }
    }

    /// The sum less the least index of this role.
    fn without_low(self, role: &Role) -> Formula
        requires room { HasRoom self }
        requires small { HasSmallEnds role.now }
        ensures { sum_of result ≡ without_low (sum_of self) role.now }
    {
        let a = difference(self.a, factor(role.low.base));
        let b = difference(self.b, i64::from(role.low.off));
        Formula { a, b }
    }
}

/// Appends the base and the place of one role, whose first rank has the number `first`, and gives the number behind its
/// last rank.
fn number_role(
    role: &Role,
    first: Formula,
    bases: &mut Vec<Formula>,
    places: &mut Vec<Formula>,
) -> Result<Formula, NoMemory>
    requires room { HasRoom first }
    requires small { HasSmallEnds role.now }
    ensures next { IfOk result (λ next. sum_of next ≡ with_role (sum_of first) role.now) }
    ensures bases { OnOk result (map sum_of bases.new.items ≡ map sum_of bases.old.items ++ sum_of first ∷ []) }
    ensures places { OnOk result (map sum_of places.new.items ≡ map sum_of places.old.items ++ without_low (sum_of first) role.now ∷ []) }
{
    bases.push(first)?;
    places.push(first.without_low(role))?;
    Ok(first.with_role(role))
}

/// Appends the bases and places of the roles, where the first rank of the first role has the number `first`, and gives
/// the number behind the last rank.
#[tactic(auto, using(crate::proofs::Rooms::room_after, crate::proofs::Rooms::room_now))]
pub fn number_roles(
    roles: &[Role],
    bases: &mut Vec<Formula>,
    places: &mut Vec<Formula>,
) -> Result<Formula, NoMemory>
    requires few { length roles.now ≤ 64 }
    requires small { All HasSmallEnds roles.now }
    ensures size { IfOk result (λ size. sum_of size ≡ ranks_of roles.now) }
    ensures bases { OnOk result (map sum_of bases.new.items ≡ map sum_of bases.old.items ++ bases_of roles.now) }
    ensures places { OnOk result (map sum_of places.new.items ≡ map sum_of places.old.items ++ places_of roles.now) }
{
    let mut first = Formula { a: 0, b: 0 };
    for role in roles {
        first = number_role(role, first, bases, places)?;
    }
    Ok(first)
}

#[tactic(auto, using(crate::proofs::Emitted::small_ends, crate::proofs::Emitted::tree_made))]
fn numbered(alloc: Global, local: &Local) -> Result<CTree, NoMemory>
    requires { IsWellMade (program_of local.now) }
    ensures same { IfOk result (λ tree. program_of tree.local ≡ program_of local.now) }
    ensures made { IfOk result IsTree }
{
    let mut bases = Vec::new(alloc);
    let mut places = Vec::new(alloc);
    let size = number_roles(&local.roles, &mut bases, &mut places)?;
    Ok(CTree {
        local: local.copy(alloc)?,
        size,
        bases,
        places,
    })
}

/// The C tree of an endpoint program. A role's base is the number of its first rank, and its place is that less its least
/// index: so a rank's number is its index plus its role's place, and its role is the last whose base is at most that.
///
/// The same as `numbered`, with the clause that the tree numbers the ranks.
pub fn emit(alloc: Global, local: &Local) -> Result<CTree, NoMemory>
    requires { IsWellMade (program_of local.now) }
    ensures same { IfOk result (λ tree. program_of tree.local ≡ program_of local.now) }
    ensures made { IfOk result IsTree }
    ensures numbers { IfOk result (λ tree. (n : ℕ) → IsInRange local.now.range n → NumbersRanks tree (pos n)) }
{
    numbered(alloc, local)
}
