//! The names of the files beside OUT.

ghost use Rattle.std.specs.Prelude.{◌≡◌, ◌++◌, ◌≤◌, IfOk};
ghost use Rattle.std.specs.String.{string_bytes};
ghost use Rattle.pb_renew_put.specs.Names.{is_written, left_name, new_name, old_file, spare_name};

use crate::NoMemory;
use std::alloc::Global;

/// The name of OUT.left.
pub fn left_name(alloc: Global, out: &str) -> Result<String, NoMemory>
    ensures { IfOk result (λ name. string_bytes name ≡ left_name out.now) }
{
    joined(alloc, out, ".left")
}

/// The name of a new OUT, before it has its own.
pub fn new_name(alloc: Global, out: &str) -> Result<String, NoMemory>
    ensures { IfOk result (λ name. string_bytes name ≡ new_name out.now) }
{
    joined(alloc, out, ".new")
}

/// The name of a new OUT.left, before it has its own.
pub fn spare_name(alloc: Global, out: &str) -> Result<String, NoMemory>
    ensures { IfOk result (λ name. string_bytes name ≡ spare_name out.now) }
{
    joined(alloc, out, ".left.new")
}

/// The name of an old OUT: OUT.old for 1, OUT.old.2 for 2, and so on.
pub fn old_file(alloc: Global, out: &str, number: u64) -> Result<String, NoMemory>
    ensures { IfOk result (λ name. string_bytes name ≡ old_file out.now number) }
{
    if number == 1 {
        return joined(alloc, out, ".old");
    }
    Ok(format!(in alloc; "{out}.old.{number}")?)
}

fn joined(alloc: Global, name: &str, ending: &str) -> Result<String, NoMemory>
    ensures { IfOk result (λ joined. string_bytes joined ≡ name.now ++ ending.now) }
{
    let mut joined = String::from_str(alloc, name)?;
    joined.push_str(ending)?;
    Ok(joined)
}

/// True where this is the name of a file that is written: OUT, OUT.left, or one of the two beside them.
pub fn is_written(alloc: Global, out: &str, name: &str) -> Result<bool, NoMemory>
    ensures { IfOk result (λ is. is ≡ is_written out.now name.now) }
{
    let left = left_name(alloc, out)?;
    let fresh = new_name(alloc, out)?;
    let spare = spare_name(alloc, out)?;
    Ok(name == out || name == left.as_str() || name == fresh.as_str() || name == spare.as_str())
}
