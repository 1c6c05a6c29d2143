//! What labels carry, one after the other.

ghost use Rattle.std.specs.Prelude.{◌≡◌, drop};
ghost use Rattle.pb_typed.specs.Frame.{first_carried, is_open};
ghost use Rattle.std.specs.List.{list_any};

use pb_typed_types::Carried;

/// What the label at this place carries; its words where the table ends before it.
#[tactic(auto, using(crate::proofs::Tables::first_of))]
pub fn carried_of(types: &[Carried], at: usize) -> Carried
    ensures { result ≡ first_carried (drop at types.now) }
{
    match types.get(at) {
        Some(carried) => *carried,
        None => Carried::Words,
    }
}

fn is_open(carried: Carried) -> bool
    ensures { result ≡ is_open carried }
{
    match carried {
        Carried::Words => false,
        Carried::Fixed { .. } => false,
        Carried::Open { .. } => true,
    }
}

/// True where some label carries elements of an open count.
pub fn has_open(types: &[Carried]) -> bool
    ensures { result ≡ list_any is_open types.now }
{
    for carried in types {
        if is_open(*carried) {
            return true;
        }
    }
    false
}
