ghost use Rattle.std.specs.Prelude.{◌≡◌, IfOk};
ghost use Rattle.pb_local.specs.Collectives.{operation_of, signed, is_at_most, combine, word_by_word};

use pb_syntax::{Op, Payload};
use pb_text::NoMemory;
use std::alloc::Global;

/// A word read in two's complement.
fn signed(word: u32) -> i64
    ensures { result ≡ signed word }
{
    if word < 2147483648 {
        i64::from(word)
    } else {
        i64::from(word) - 4294967296
    }
}

fn is_at_most(payload: Payload, x: u32, y: u32) -> bool
    ensures { result ≡ is_at_most payload x y }
{
    match payload {
        Payload::Int32(_) => signed(x) <= signed(y),
        Payload::Uint32(_) => x <= y,
        Payload::Unit => x <= y,
    }
}

/// An operation on two words. Words of `Int32` are compared in two's complement, and a sum is taken modulo 2^32.
fn combine(payload: Payload, op: Op, x: u32, y: u32) -> u32
    ensures { result ≡ combine payload (operation_of op) x y }
{
    match op {
        Op::Min => { if is_at_most(payload, x, y) { x } else { y } }
        Op::Max => { if is_at_most(payload, x, y) { y } else { x } }
        Op::Sum => x.wrapping_add(y),
    }
}

/// The words of two ranks, word by word.
#[tactic(auto, using(crate::proofs::Combining::one_more_word, crate::proofs::Combining::no_more_words))]
pub fn combine_words(
    alloc: Global,
    payload: Payload,
    op: Op,
    xs: &[u32],
    ys: &[u32],
) -> Result<Vec<u32>, NoMemory>
    ensures { IfOk result (λ v. v.items ≡ word_by_word (combine payload (operation_of op)) xs.now ys.now) }
{
    let mut words = Vec::new(alloc);
    let many = xs.len().min(ys.len());
    for i in 0..many {
        words.push(combine(payload, op, xs[i], ys[i]))?;
    }
    Ok(words)
}
