//! The bodies of functions where nothing else is given.

ghost use Rattle.std.specs.Prelude.{◌≡◌, ◌++◌, OnOk, IfOk, IsTrue};
ghost use Rattle.pb_local.specs.Names.{is_name};
ghost use Rattle.pb_typed.specs.Functions.{default_body, default_of, warning};

use pb_ctree::{Body, Name};
use pb_local::push_pieces;
use pb_text::NoMemory;
use pb_typed::{Function, Role};
use std::alloc::Global;

fn push_warning(out: &mut Vec<u8>, kind: &[u8], name: &Name) -> Result<(), NoMemory>
    ensures { OnOk result (out.new.items ≡ out.old.items ++ warning kind.now name.now) }
{
    push_pieces(
        out,
        &[
            b"#warning \"",
            kind,
            name.bytes(),
            b" is not written yet\"\n",
        ],
    )
}

fn push_warned(out: &mut Vec<u8>, kind: &[u8], name: &Name, rest: &[u8]) -> Result<(), NoMemory>
    ensures { OnOk result (out.new.items ≡ out.old.items ++ (warning kind.now name.now ++ rest.now)) }
{
    push_warning(out, kind, name)?;
    out.extend_from_slice(rest)?;
    Ok(())
}

fn push_default(out: &mut Vec<u8>, role: Role, name: &Name) -> Result<(), NoMemory>
    ensures { OnOk result (out.new.items ≡ out.old.items ++ default_body role name.now) }
{
    match role {
        Role::Makes => push_warning(out, b"make_", name),
        Role::MakesOwn => push_warned(out, b"make_", name, b"  *count = 0;\n  return 0;\n"),
        Role::GivesRoom => push_warned(out, b"room_", name, b"  *most = 0;\n  return 0;\n"),
        Role::Takes => Ok(()),
        Role::TakesOwn => Ok(()),
        Role::Computes => Ok(()),
        Role::Chooses => push_warned(out, b"c_", name, b"  return 0;\n"),
    }
}

fn default_bytes(alloc: Global, role: Role, name: &Name) -> Result<Vec<u8>, NoMemory>
    ensures { IfOk result (λ bytes. bytes.items ≡ default_body role name.now) }
{
    let mut bytes = Vec::new(alloc);
    push_default(&mut bytes, role, name)?;
    Ok(bytes)
}

/// The body of a function where nothing else is given: a warning of the build that it isn't written yet, and no elements or
/// the first branch; nothing where that does no harm. The function's name is one of the protocol language.
#[tactic(auto, using(crate::proofs::Defaults::default_is))]
pub fn default_of(alloc: Global, function: &Function) -> Result<Body, NoMemory>
    requires { IsTrue (is_name function.now.name) }
    ensures { IfOk result (λ body. body ≡ default_of function.now) }
{
    match Body::of(default_bytes(alloc, function.role, &function.name)?) {
        Some(body) => Ok(body),
        None => unreachable!(),
    }
}
