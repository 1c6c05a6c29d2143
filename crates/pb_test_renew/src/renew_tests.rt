use crate::endings::{Ending, count_of, endings, endings_of_two, place_of};
use crate::files::{K, L, OTHER_K, has_part, renew, store_of, wanted_of};
use pb_renew::{KernelFault, Losing, Unrenewed};
use std::test::Fail;

const NOTE: &[u8] = b"a note\n";

/// So many calls that none is left.
const ALL: u64 = 99;

/// Any one call fails: both files are as before then.
#[test]
fn one_call_fails(rt: HostRuntime) -> Result<(), Fail> {
    let alloc = rt.alloc();
    let wanted = wanted_of(alloc, &["L"])?;
    let rows: [(Option<&[u8]>, &[u8]); 4] = [
        (None, K),
        (Some(b""), K),
        (Some(NOTE), K),
        (Some(K), b""),
    ];
    for (left, gone) in rows {
        let endings = endings(alloc, &wanted, gone, left, 1)?;
        assert!(rt; place_of(&endings, Ending::Astray) == None);
        assert!(rt; place_of(&endings, Ending::Halfway) == None);
        let done = place_of(&endings, Ending::Done).unwrap_or_default();
        assert!(rt; done > 20);
        assert!(rt; count_of(&endings, Ending::Refused) == done);
    }
    Ok(())
}

/// All calls from one on fail, as at a crash. Where OUT.left has got its bodies, it can't be put back.
#[test]
fn all_calls_fail_from_one_on(rt: HostRuntime) -> Result<(), Fail> {
    let alloc = rt.alloc();
    let wanted = wanted_of(alloc, &["L"])?;
    for left in [None, Some(NOTE)] {
        let endings = endings(alloc, &wanted, K, left, ALL)?;
        assert!(rt; place_of(&endings, Ending::Astray) == None);
        // OUT.left isn't brought to the disk, or the new OUT doesn't get its name.
        assert!(rt; count_of(&endings, Ending::Halfway) == 2);
        let done = place_of(&endings, Ending::Done).unwrap_or_default();
        assert!(rt; done > 20);
        assert!(rt; count_of(&endings, Ending::Refused).saturating_add(2) == done);
    }
    Ok(())
}

/// Any two calls fail.
#[test]
fn two_calls_fail(rt: HostRuntime) -> Result<(), Fail> {
    let alloc = rt.alloc();
    let wanted = wanted_of(alloc, &["L"])?;
    let mut halves = 0_usize;
    for first in 0..60 {
        let endings = endings_of_two(alloc, &wanted, K, Some(NOTE), first)?;
        assert!(rt; place_of(&endings, Ending::Astray) == None, "{first}");
        halves = halves.saturating_add(count_of(&endings, Ending::Halfway));
    }
    assert!(rt; halves > 0);
    Ok(())
}

/// Nothing is gone: OUT.left isn't touched, and there is nothing to be put back.
#[test]
fn each_body_has_its_function(rt: HostRuntime) -> Result<(), Fail> {
    let alloc = rt.alloc();
    let wanted = wanted_of(alloc, &["L", "K"])?;
    for count in [1, ALL] {
        let endings = endings(alloc, &wanted, b"", Some(b"/*@ end */\n"), count)?;
        assert!(rt; place_of(&endings, Ending::Astray) == None, "{count}");
        assert!(rt; place_of(&endings, Ending::Halfway) == None, "{count}");
        assert!(rt; count_of(&endings, Ending::Refused) > 10, "{count}");
        assert!(rt; count_of(&endings, Ending::Done) > 10, "{count}");
    }
    Ok(())
}

#[test]
fn one_file_alone(rt: HostRuntime) -> Result<(), Fail> {
    let wanted = wanted_of(rt.alloc(), &["L", "K", "M"])?;
    // Where nothing is gone, what is left isn't read.
    let left = b"/*@ end */\n".as_slice();
    let mut store = store_of(rt.alloc(), K, Some(left), Vec::new(rt.alloc()))?;
    assert!(rt; renew(rt.alloc(), &mut store, &wanted, "o.c", Losing::Refused) == Ok(()));
    assert!(rt; has_part(store.bytes_of("o.c"), K));
    assert!(rt; store.bytes_of("o.c.left") == Some(left));
    assert!(rt; renew(rt.alloc(), &mut store, &wanted, "new.c", Losing::Refused) == Ok(()));
    assert!(rt; has_part(store.bytes_of("new.c"), L));
    assert!(rt; store.bytes_of("new.c.left") == None);
    Ok(())
}

#[test]
fn what_is_refused(rt: HostRuntime) -> Result<(), Fail> {
    let wanted = wanted_of(rt.alloc(), &[])?;
    let rows: [(&[u8], &[u8]); 4] = [
        (K, OTHER_K),
        (K, b"/*@ end */\n"),
        (b"/*@ kernel k_K */\n", b""),
        (b"int main(void) { return 0; }\n", b""),
    ];
    for (text, left) in rows {
        let mut store = store_of(rt.alloc(), text, Some(left), Vec::new(rt.alloc()))?;
        let renewed = renew(rt.alloc(), &mut store, &wanted, "o.c", Losing::Refused);
        let is_refused = matches!(&renewed, Err(Unrenewed::Left(_) | Unrenewed::Out(_)));
        assert!(rt; is_refused);
        assert!(rt; store.bytes_of("o.c") == Some(text));
        assert!(rt; store.bytes_of("o.c.left") == Some(left));
    }
    let mut store = store_of(rt.alloc(), b"text", None, Vec::new(rt.alloc()))?;
    let renewed = renew(rt.alloc(), &mut store, &wanted, "o.c", Losing::Refused);
    assert!(rt; matches!(&renewed, Err(Unrenewed::Out(KernelFault::Missing(_)))));
    Ok(())
}
