use pb_text::{Key, Name, Names, NoMemory, Words, push_decimal, push_number};
use std::alloc::Global;

/// How long the name is that is made of so many bytes, if there is one.
fn name_length(alloc: Global, length: usize) -> Result<Option<usize>, NoMemory> {
    let bytes = vec![in alloc; b'a'; length]?;
    Ok(Name::of(bytes.as_slice()).map(|name| name.bytes().len()))
}

#[test]
fn a_name_has_1_to_64_bytes(rt: HostRuntime) {
    assert!(rt; name_length(rt.alloc(), 0) == Ok(None));
    assert!(rt; name_length(rt.alloc(), 1) == Ok(Some(1)));
    assert!(rt; name_length(rt.alloc(), 64) == Ok(Some(64)));
    assert!(rt; name_length(rt.alloc(), 65) == Ok(None));
}

/// Whether a table gives the first name 0, and finds it, and no other one.
fn is_numbered(alloc: Global, master: Name, worker: Name) -> Result<bool, NoMemory> {
    let mut names = Names::new(alloc);
    let first = names.intern(master)?;
    Ok(
        first == 0
            && names.name(first) == master
            && names.find(&worker) == None
            && names.find(&master) == Some(0),
    )
}

#[test]
fn names_are_numbered_as_they_come(rt: HostRuntime) {
    let names = (Name::of(b"Master"), Name::of(b"Worker"));
    assert!(rt; names.0.is_some() && names.1.is_some());
    if let (Some(master), Some(worker)) = names {
        assert!(rt; is_numbered(rt.alloc(), master, worker) == Ok(true));
    }
}

const SIGNED: &[i64] = &[0, 7, -3, 1_000_000, i64::MIN, i64::MAX];

/// Whether the numbers are written so, each with a blank behind it.
fn are_written(alloc: Global, numbers: &[i64], want: &[u8]) -> Result<bool, NoMemory> {
    let mut text = Vec::new(alloc);
    for number in numbers {
        push_number(&mut text, *number)?;
        text.push(b' ')?;
    }
    Ok(text.as_slice() == want)
}

#[test]
fn numbers_are_decimal(rt: HostRuntime) {
    let want = b"0 7 -3 1000000 -9223372036854775808 9223372036854775807 ";
    assert!(rt; are_written(rt.alloc(), SIGNED, want) == Ok(true));
}

fn keeps_order(alloc: Global, list: &[u32]) -> Result<bool, NoMemory> {
    let words = Words::of(Vec::from_slice(alloc, list)?);
    Ok(words.list() == list)
}

#[test]
fn words_keep_their_order(rt: HostRuntime) {
    assert!(rt; keeps_order(rt.alloc(), &[3, 1, 2]) == Ok(true));
}

const DIGITS: &[u64] = &[0, 9, 10, 99, 100, 18_446_744_073_709_551_615];

fn are_digits(alloc: Global, numbers: &[u64], want: &[u8]) -> Result<bool, NoMemory> {
    let mut text = Vec::new(alloc);
    for number in numbers {
        push_decimal(&mut text, *number)?;
        text.push(b' ')?;
    }
    Ok(text.as_slice() == want)
}

#[test]
fn digits_of_small_and_large_numbers(rt: HostRuntime) {
    let want = b"0 9 10 99 100 18446744073709551615 ";
    assert!(rt; are_digits(rt.alloc(), DIGITS, want) == Ok(true));
}

const SPELLINGS: &[u8] =
    b"const global protocol role from to foreach rec continue choice at or compute barrier \
broadcast reduce allreduce with max min sum int32 uint32 do ";

fn are_spelled(alloc: Global, keys: &[Key], want: &[u8]) -> Result<bool, NoMemory> {
    let mut text = Vec::new(alloc);
    for key in keys {
        text.extend_from_slice(key.spelling())?;
        text.push(b' ')?;
    }
    Ok(text.as_slice() == want)
}

#[test]
fn keywords_are_spelled(rt: HostRuntime) {
    assert!(rt; are_spelled(rt.alloc(), Key::all(), SPELLINGS) == Ok(true));
}
