ghost use Rattle.std.specs.Prelude.{◌≡◌, [], Some, None, MatchOption};
ghost use Rattle.pb_local.specs.Tree.{program_of};
ghost use Rattle.pb_types_fit.specs.Faults.{is_constant, constant_fault, first_wrong, value_of};

use crate::FitFault;
use crate::taken::is_taken;
use pb_local::Local;
use pb_types::Constant;

/// The most constants of a types file.
pub const MOST_CONSTANTS: u32 = 4_096;

// Whether one of these has the name.
fn is_constant(name: &[u8], constants: &[Constant]) -> bool
    ensures { result ≡ is_constant name.now constants.now }
{
    for constant in constants {
        if constant.name.name.bytes() == name {
            return true;
        }
    }
    false
}

/// The value of the constant of this name.
pub fn value_of(constants: &[Constant], name: &[u8]) -> Option<u32>
    ensures { result ≡ value_of constants.now name.now }
{
    for constant in constants {
        if constant.name.name.bytes() == name {
            return Some(constant.value);
        }
    }
    None
}

// What is wrong with a constant behind these.
fn constant_fault(local: &Local, earlier: &[Constant], constant: &Constant) -> Option<FitFault>
    ensures { result ≡ constant_fault (program_of local.now) earlier.now constant.now }
{
    let place = constant.name.place;
    if earlier.len() >= MOST_CONSTANTS as usize {
        return Some(FitFault::TooManyConstants(place));
    }
    if is_constant(constant.name.name.bytes(), earlier) {
        return Some(FitFault::ConstantTwice(place));
    }
    if is_taken(local, constant.name.name.bytes()) {
        return Some(FitFault::NameTaken(place));
    }
    None
}

/// The first fault of the constants.
pub fn constants_fault(local: &Local, constants: &[Constant]) -> Option<FitFault>
    ensures { result ≡ first_wrong (constant_fault (program_of local.now)) [] constants.now }
{
    for at in 0..constants.len() {
        if let Some(fault) = constant_fault(local, &constants[..at], &constants[at]) {
            return Some(fault);
        }
    }
    None
}
