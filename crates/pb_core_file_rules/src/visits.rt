ghost use Rattle.std.specs.Prelude.{◌≡◌, ◌++◌, [], ◌∷◌, ◌||◌, not, true, false, nat_eq, if◌then◌else◌, map, OnOk};
ghost use Rattle.pb_core_language.specs.Names.{same, is_named, lin_visits, range_visits, index_visits, end_visits};
ghost use Rattle.pb_core_language.specs.FileRules.{role_names};
ghost use Rattle.pb_core_file_rules.specs.Visiting.{met, noted, noted_bound, kind_no, scope_of};
ghost use Rattle.pb_core_file_rules.specs.declared.visits.NameKind.TheVariants as N;

use crate::scope::{Around, is_same};
use pb_syntax::{End, IndexText, LinText, NoMemory, RangeText, RoleText};
use pb_text::{Name, Spot};

/// What a name is of.
#[derive(Clone, Copy)]
pub enum NameKind {
    Constant,
    Protocol,
    Role,
    Label,
    ComputeKernel,
    ChoiceKernel,
    Loop,
    Variable,
}

/// A name where it stands.
#[derive(Clone, Copy)]
pub struct Met {
    pub spot: Spot,
    pub kind: NameKind,
    /// It is declared here, so it may not have been met before.
    pub declares: bool,
    /// It is bound in the scope of such a name, or isn't known here.
    pub is_astray: bool,
}

/// The constant and the roles of a file.
#[derive(Clone, Copy)]
pub struct Declared<'a> {
    pub constant: &'a Name,
    pub roles: &'a [RoleText],
}

/// The loops and the variables around a place.
#[derive(Clone, Copy)]
pub struct Inside<'a> {
    pub loops: &'a Around<'a>,
    pub variables: &'a Around<'a>,
}

/// Whether both are the same kind.
pub fn is_kind(a: NameKind, b: NameKind) -> bool
    ensures { result ≡ nat_eq (kind_no a) (kind_no b) }
{
    a == b
}

fn has_role(roles: &[RoleText], name: &Name) -> bool
    ensures { result ≡ is_named name.now (role_names roles.now) }
{
    for role in roles {
        if is_same(name, &role.role.name) {
            return true;
        }
    }
    false
}

fn note(
    spot: &Spot,
    kind: NameKind,
    declares: bool,
    is_astray: bool,
    out: &mut Vec<Met>,
) -> Result<(), NoMemory>
    ensures { OnOk result (out.new.items ≡ out.old.items ++ (noted spot.now kind declares is_astray ∷ [])) }
{
    let spot = *spot;
    out.push(Met {
        spot,
        kind,
        declares,
        is_astray,
    })?;
    Ok(())
}

/// Adds a name that is declared.
pub fn declare(spot: &Spot, kind: NameKind, out: &mut Vec<Met>) -> Result<(), NoMemory>
    ensures { OnOk result (out.new.items ≡ out.old.items ++ (noted spot.now kind true false ∷ [])) }
{
    note(spot, kind, true, false, out)
}

/// Adds the name of a label, a kernel or a loop.
pub fn mention(spot: &Spot, kind: NameKind, out: &mut Vec<Met>) -> Result<(), NoMemory>
    ensures { OnOk result (out.new.items ≡ out.old.items ++ (noted spot.now kind false false ∷ [])) }
{
    note(spot, kind, false, false, out)
}

/// Adds a name that is bound.
pub fn bind(spot: &Spot, kind: NameKind, scope: &Inside, out: &mut Vec<Met>) -> Result<(), NoMemory>
    ensures { OnOk result (out.new.items ≡ out.old.items ++ (noted_bound spot.now kind (scope_of scope.now) ∷ [])) }
{
    let is_inside = scope.loops.has(&spot.name) || scope.variables.has(&spot.name);
    note(spot, kind, false, is_inside, out)
}

fn add_base(
    spot: &Spot,
    declared: &Declared,
    scope: &Inside,
    out: &mut Vec<Met>,
) -> Result<(), NoMemory>
    ensures { OnOk result (out.new.items ≡ out.old.items ++ ((if same spot.now.name declared.now.constant.now then noted spot.now N.Constant false false else noted spot.now N.Variable false (not (is_named spot.now.name (scope_of scope.now).variables))) ∷ [])) }
{
    if is_same(&spot.name, declared.constant) {
        return mention(spot, NameKind::Constant, out);
    }
    note(
        spot,
        NameKind::Variable,
        false,
        !scope.variables.has(&spot.name),
        out,
    )
}

fn add_lin(
    text: &LinText,
    declared: &Declared,
    scope: &Inside,
    out: &mut Vec<Met>,
) -> Result<(), NoMemory>
    ensures { OnOk result (out.new.items ≡ out.old.items ++ map (met (role_names declared.now.roles.now)) (lin_visits declared.now.constant.now (scope_of scope.now) text.now)) }
{
    match &text.base {
        None => Ok(()),
        Some(spot) => add_base(spot, declared, scope, out),
    }
}

/// Adds the names of a range.
#[tactic(auto, using(crate::proofs::Mets::both))]
pub fn add_range(
    range: &RangeText,
    declared: &Declared,
    scope: &Inside,
    out: &mut Vec<Met>,
) -> Result<(), NoMemory>
    ensures { OnOk result (out.new.items ≡ out.old.items ++ map (met (role_names declared.now.roles.now)) (range_visits declared.now.constant.now (scope_of scope.now) range.now)) }
{
    add_lin(&range.low, declared, scope, out)?;
    add_lin(&range.high, declared, scope, out)
}

// `inside` is the scope of a message, in which the variable is that it binds.
fn add_index(
    index: &IndexText,
    declared: &Declared,
    scope: &Inside,
    inside: &Inside,
    out: &mut Vec<Met>,
) -> Result<(), NoMemory>
    ensures { OnOk result (out.new.items ≡ out.old.items ++ map (met (role_names declared.now.roles.now)) (index_visits declared.now.constant.now (scope_of scope.now) (scope_of inside.now) index.now)) }
{
    match index {
        IndexText::Zero => Ok(()),
        IndexText::At(text) => add_lin(text, declared, inside, out),
        IndexText::Bind(spot, range) => {
            bind(spot, NameKind::Variable, scope, out)?;
            add_range(range, declared, scope, out)
        }
    }
}

/// Adds the names of an end.
pub fn add_end(
    end: &End,
    declared: &Declared,
    scope: &Inside,
    inside: &Inside,
    out: &mut Vec<Met>,
) -> Result<(), NoMemory>
    ensures { OnOk result (out.new.items ≡ out.old.items ++ map (met (role_names declared.now.roles.now)) (end_visits declared.now.constant.now (scope_of scope.now) (scope_of inside.now) end.now)) }
{
    let is_unknown = !has_role(declared.roles, &end.role.name);
    note(&end.role, NameKind::Role, false, is_unknown, out)?;
    add_index(&end.index, declared, scope, inside, out)
}
