ghost use Rattle.std.specs.Prelude.{◌≡◌};
ghost use Rattle.pb_types_fit.specs.Faults.{count_fault, is_too_large, extent_fault};

use crate::FitFault;
use crate::constants::value_of;
use pb_text::Place;
use pb_types::{Constant, Element, Extent};

/// The most bytes of a message: 1 GiB.
pub const MOST_BYTES: u32 = 1_073_741_824;

fn is_too_large(element: Element, count: u32) -> bool
    ensures { result ≡ is_too_large element count }
{
    u64::from(count) * u64::from(element.size()) > u64::from(MOST_BYTES)
}

// What is wrong with messages of so many elements.
fn count_fault(element: Element, count: u32, place: Place) -> Option<FitFault>
    ensures { result ≡ count_fault element count place }
{
    if count == 0 {
        return Some(FitFault::ZeroCount(place));
    }
    if is_too_large(element, count) {
        return Some(FitFault::TooLarge(place));
    }
    None
}

/// What is wrong with the count of a line.
pub fn extent_fault(constants: &[Constant], element: Element, extent: &Extent) -> Option<FitFault>
    ensures { result ≡ extent_fault constants.now element extent.now }
{
    match extent {
        Extent::One => None,
        Extent::Number { value, place } => count_fault(element, *value, *place),
        Extent::Constant(name) => match value_of(constants, name.name.bytes()) {
            Some(count) => count_fault(element, count, name.place),
            None => Some(FitFault::UnknownConstant(name.place)),
        },
        Extent::Open => None,
    }
}
