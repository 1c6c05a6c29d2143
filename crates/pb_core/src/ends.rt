ghost use Rattle.std.specs.Prelude.{◌≡◌, ◌<◌, ◌^◌, if◌then◌else◌, length, pos};
ghost use Rattle.pb_core_language.specs.FileRules.{role_names};
ghost use Rattle.pb_affine.specs.declared.lin.Base.TheVariants.{Fixed, Param, Var};
ghost use Rattle.pb_core_language.specs.Names.{same};
ghost use Rattle.pb_core_language.specs.Meaning as M;
ghost use Rattle.pb_core.specs.Building.{table_of};

use crate::tables::Tables;
use pb_affine::{Base, Lin};
use pb_core_file_rules::is_same;
use pb_core_language::{CoreEnd, CoreRole};
use pb_syntax::{End, IndexText, LinText, RoleText};
use pb_text::Name;

// The number of the role, or how many there are. A file has few roles.
fn role_number(roles: &[RoleText], name: &Name) -> u32
    requires { length roles.now < 2 ^ 32 }
    ensures { result ≡ M.position_of name.now (role_names roles.now) }
{
    let mut number = 0;
    for role in roles {
        if is_same(name, &role.role.name) {
            return number;
        }
        number += 1;
    }
    number
}

/// The lin over the constant or a variable.
pub fn lin_of(text: &LinText, constant: &Name) -> Lin
    ensures { result ≡ M.lin_of constant.now text.now }
{
    match &text.base {
        None => Lin {
            base: Base::Fixed,
            off: text.off,
        },
        Some(spot) => Lin {
            base: base_of(&spot.name, constant),
            off: text.off,
        },
    }
}

fn base_of(name: &Name, constant: &Name) -> Base
    ensures { result ≡ (if same name.now constant.now then Param else Var) }
{
    if is_same(name, constant) {
        Base::Param
    } else {
        Base::Var
    }
}

fn index_of(index: &IndexText, constant: &Name) -> Lin
    ensures { result ≡ M.index_of constant.now index.now }
{
    match index {
        IndexText::Zero => zero(),
        IndexText::At(text) => lin_of(text, constant),
        IndexText::Bind(_, _) => Lin {
            base: Base::Var,
            off: 0,
        },
    }
}

fn zero() -> Lin
    ensures { result ≡ record { base = Fixed; off = pos 0 } }
{
    Lin {
        base: Base::Fixed,
        off: 0,
    }
}

/// A role with its range.
pub fn role_of(text: &RoleText, constant: &Name) -> CoreRole
    ensures { result ≡ M.role_of constant.now text.now }
{
    match &text.range {
        None => CoreRole {
            name: text.role.name,
            place: text.role.place,
            low: zero(),
            high: zero(),
        },
        Some(range) => CoreRole {
            name: text.role.name,
            place: text.role.place,
            low: lin_of(&range.low, constant),
            high: lin_of(&range.high, constant),
        },
    }
}

/// The end, with its role's number.
pub fn end_of(end: &End, tables: &Tables) -> CoreEnd
    ensures { result ≡ M.end_of (table_of tables.now) end.now }
{
    CoreEnd {
        role: role_number(tables.roles, &end.role.name),
        at: index_of(&end.index, tables.constant),
        place: end.role.place,
    }
}
