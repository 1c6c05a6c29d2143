//! Where a text is to be renewed.

ghost use Rattle.std.specs.Prelude.{◌≡◌, ◌≤◌, IfErr, IfOk, IfSome};
ghost use Rattle.std.specs.String.{string_bytes};
ghost use Rattle.pb_renew.specs.Places.{IsNoPlace, IsPlace, IsThere};
ghost use Rattle.pb_renew_put.specs.Names.{left_name};
ghost use Rattle.pb_renew_store.specs.Deeds.{DidNothing};

use crate::losing::Losing;
use crate::unrenewed::Unrenewed;
use pb_renew_put::left_name;
use pb_renew_store::{Failed, FileKind, Store};
use std::alloc::Global;

/// OUT and OUT.left, and which of the two are there.
#[derive(Drop)]
pub struct Place {
    /// The name of OUT; where a link has it, of the file that it leads to.
    pub out: String,
    pub is_out: bool,
    /// The name of OUT.left.
    pub left: String,
    pub is_left: bool,
}

/// The place of an OUT with this name.
///
/// `NoFile` and `Shared` say that OUT or OUT.left is there and is no file of its own. Where lines may be lost an OUT with another name
/// is taken: that name keeps the old text.
pub fn place_of<S: Store>(
    alloc: Global,
    store: &mut S,
    out: &str,
    losing: Losing,
) -> Result<Place, Unrenewed>
    ensures place { IfOk result (λ place. IfSome (S.holds store.old) (IsPlace out.now place)) }
    ensures left { IfOk result (λ place. string_bytes place.left ≡ left_name (string_bytes place.out)) }
    ensures refused { IfErr result (λ why. IsNoPlace why (S.holds store.old) (S.faults store.old) (S.faults store.new)) }
    ensures nothing { DidNothing (S.deeds store.old) (S.deeds store.new) (S.holds store.old) (S.holds store.new) }
    ensures later { S.faults store.old ≤ S.faults store.new }
{
    let is_out = match is_there(store, out, losing) {
        Ok(is_there) => is_there,
        Err(why) => return Err(why),
    };
    let out = match own_name(alloc, store, out, is_out) {
        Ok(name) => name,
        Err(why) => return Err(why),
    };
    let left = left_name(alloc, &out)?;
    match is_left_there(alloc, store, &left) {
        Ok(is_left) => Ok(Place {
            out,
            is_out,
            left,
            is_left,
        }),
        Err(why) => Err(why),
    }
}

/// True where OUT is there.
fn is_there<S: Store>(store: &mut S, name: &str, losing: Losing) -> Result<bool, Unrenewed>
    ensures there { IfOk result (λ it. IfSome (S.holds store.old) (IsThere name.now it)) }
    ensures refused { IfErr result (λ why. IsNoPlace why (S.holds store.old) (S.faults store.old) (S.faults store.new)) }
    ensures nothing { DidNothing (S.deeds store.old) (S.deeds store.new) (S.holds store.old) (S.holds store.new) }
    ensures later { S.faults store.old ≤ S.faults store.new }
{
    match store.kind(name) {
        Ok(FileKind::Missing) => Ok(false),
        Ok(FileKind::Regular) => Ok(true),
        Ok(FileKind::Shared) => match losing {
            Losing::Refused => Err(Unrenewed::Shared),
            Losing::Kept => Ok(true),
        },
        Ok(FileKind::Other) => Err(Unrenewed::NoFile),
        Err(Failed) => Err(Unrenewed::ReadFault),
    }
}

/// The own name of the file that a name leads to, and the name itself where there is none.
fn own_name<S: Store>(
    alloc: Global,
    store: &mut S,
    name: &str,
    is_there: bool,
) -> Result<String, Unrenewed>
    ensures own { IfOk result (λ own. IfSome (S.holds store.old) (λ files. string_bytes own ≡ name.now)) }
    ensures refused { IfErr result (λ why. IsNoPlace why (S.holds store.old) (S.faults store.old) (S.faults store.new)) }
    ensures nothing { DidNothing (S.deeds store.old) (S.deeds store.new) (S.holds store.old) (S.holds store.new) }
    ensures later { S.faults store.old ≤ S.faults store.new }
{
    if !is_there {
        return match String::from_str(alloc, name) {
            Ok(own) => Ok(own),
            Err(_) => Err(Unrenewed::NoMemory),
        };
    }
    match store.real_name(alloc, name) {
        Ok(own) => Ok(own),
        Err(Failed) => Err(Unrenewed::ReadFault),
    }
}

/// True where OUT.left is there, a file of its own.
fn is_left_there<S: Store>(alloc: Global, store: &mut S, name: &str) -> Result<bool, Unrenewed>
    ensures there { IfOk result (λ it. IfSome (S.holds store.old) (IsThere name.now it)) }
    ensures refused { IfErr result (λ why. IsNoPlace why (S.holds store.old) (S.faults store.old) (S.faults store.new)) }
    ensures nothing { DidNothing (S.deeds store.old) (S.deeds store.new) (S.holds store.old) (S.holds store.new) }
    ensures later { S.faults store.old ≤ S.faults store.new }
{
    let is_left = match is_there(store, name, Losing::Refused) {
        Ok(is_left) => is_left,
        Err(why) => return Err(why),
    };
    let own = match own_name(alloc, store, name, is_left) {
        Ok(own) => own,
        Err(why) => return Err(why),
    };
    if own.as_str() == name {
        Ok(is_left)
    } else {
        Err(Unrenewed::NoFile)
    }
}
