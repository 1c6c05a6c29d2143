ghost use Rattle.std.specs.Prelude.{◌≡◌, ◌++◌, IfOk};
ghost use Rattle.pb_core_language.specs.Collectives.{signed, is_at_most, combine, word_by_word};
ghost use Rattle.pb_core_language.specs.FlatOf.{operation_of};

use pb_core_language::Op;
use pb_syntax::Payload;
use pb_text::NoMemory;
use std::alloc::Global;

/// A word read in two's complement.
fn signed(word: u32) -> i64
    ensures { result ≡ signed word }
{
    if word < 2_147_483_648 {
        i64::from(word)
    } else {
        i64::from(word) - 4_294_967_296
    }
}

fn is_at_most(payload: &Payload, x: u32, y: u32) -> bool
    ensures { result ≡ is_at_most payload.now x y }
{
    match payload {
        Payload::Int32(_) => signed(x) <= signed(y),
        Payload::Uint32(_) => i64::from(x) <= i64::from(y),
        Payload::Unit => i64::from(x) <= i64::from(y),
    }
}

/// The operation on two words of a payload. A sum wraps.
pub fn combine(payload: &Payload, op: Op, x: u32, y: u32) -> u32
    ensures { result ≡ combine payload.now (operation_of op) x y }
{
    match op {
        Op::Min => { if is_at_most(payload, x, y) { x } else { y } }
        Op::Max => { if is_at_most(payload, x, y) { y } else { x } }
        Op::Sum => x.wrapping_add(y),
    }
}

/// The operation, word by word, up to the end of the shorter list.
#[tactic(auto, using(crate::proofs::Combining::word_step, crate::proofs::Combining::words_end))]
pub fn word_by_word(
    alloc: Global,
    payload: &Payload,
    op: Op,
    list: &[u32],
    others: &[u32],
) -> Result<Vec<u32>, NoMemory>
    ensures { IfOk result (λ v. v.items ≡ word_by_word (combine payload.now (operation_of op)) list.now others.now) }
{
    let mut all = Vec::new(alloc);
    let most = list.len().min(others.len());
    for at in 0..most {
        all.push(combine(payload, op, list[at], others[at]))?;
    }
    Ok(all)
}
