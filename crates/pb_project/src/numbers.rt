ghost use Rattle.std.specs.Prelude.{◌≡◌, ◌∷◌, suc, IfOk};

use pb_text::NoMemory;
use std::alloc::Global;

/// The numbers with one more, which stands inside them.
pub fn inside(alloc: Global, number: u32, around: &[u32]) -> Result<Vec<u32>, NoMemory>
    ensures { IfOk result (λ v. v.items ≡ number ∷ around.now) }
{
    let mut list = Vec::new(alloc);
    list.push(number)?;
    for one in around {
        list.push(*one)?;
    }
    Ok(list)
}

/// Counts one on, and gives the number before. `NoMemory` where there is no next number.
pub fn next(count: &mut u32) -> Result<u32, NoMemory>
    ensures before { IfOk result (λ n. n ≡ count.old) }
    ensures after { IfOk result (λ n. count.new ≡ suc n) }
{
    let number = *count;
    *count = number.checked_add(1).ok_or(NoMemory)?;
    Ok(number)
}
