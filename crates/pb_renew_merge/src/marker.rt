//! The bytes of a body between its markers.

ghost use Rattle.std.specs.Prelude.{◌≡◌, ◌++◌, OnOk};
ghost use Rattle.pb_renew_merge.specs.Left.{body_text, front_of, word_of};

use pb_kernels::{KName, Kind, Name, NoMemory};

/// How the marker that opens a body of this kind begins.
fn front_of(kind: Kind) -> &'static [u8]
    ensures { result.now ≡ front_of kind }
{
    match kind {
        Kind::Prelude => b"/*@ prelude",
        Kind::Compute => b"/*@ kernel k_",
        Kind::Choice => b"/*@ kernel c_",
        Kind::Make => b"/*@ kernel make_",
        Kind::Take => b"/*@ kernel take_",
        Kind::Room => b"/*@ kernel room_",
    }
}

/// The bytes of a name; none where there is none.
fn word_of(name: &Option<Name>) -> &[u8]
    ensures { result.now ≡ word_of name.now }
{
    match name {
        None => b"",
        Some(name) => name.bytes(),
    }
}

/// Appends a body between its markers.
#[tactic(auto, unfolding(crate::specs::Left::body_text))]
pub fn push_body(out: &mut Vec<u8>, name: &KName, body: &[u8]) -> Result<(), NoMemory>
    ensures { OnOk result (out.new.items ≡ out.old.items ++ body_text name.now body.now) }
{
    out.extend_from_slice(front_of(name.kind))?;
    out.extend_from_slice(word_of(&name.name))?;
    out.extend_from_slice(b" */\n")?;
    out.extend_from_slice(body)?;
    out.extend_from_slice(b"/*@ end */\n")?;
    Ok(())
}
