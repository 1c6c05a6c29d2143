use crate::files::{job_of, put_job, store_of};
use pb_renew_put::{Leaving, PutFault};
use pb_text::NoMemory;
use std::alloc::Global;
use std::test::Fail;

const TEXT: &[u8] = b"the text that is new";

const BEFORE: &[u8] = b"what was left";

const BODIES: &[u8] = b"what was left, and more of it";

/// What OUT.left gets.
fn leaving(alloc: Global, before: Option<&[u8]>) -> Result<Option<Leaving>, NoMemory> {
    let before = match before {
        Some(bytes) => Some(Vec::from_slice(alloc, bytes)?),
        None => None,
    };
    Ok(Some(Leaving {
        before,
        bodies: Vec::from_slice(alloc, BODIES)?,
    }))
}

/// Each call in turn fails alone: then both files are as before, and nothing lies beside them.
#[test]
fn one_call_fails(rt: HostRuntime) -> Result<(), Fail> {
    let alloc = rt.alloc();
    let job = job_of(alloc, b"old", TEXT, leaving(alloc, Some(BEFORE))?)?;
    let mut done = 0_usize;
    for failing in 0..30 {
        let mut store = store_of(alloc, b"old", Some(BEFORE), [failing].to_vec(alloc)?)?;
        let put = put_job(alloc, &mut store, &job);
        let text = store.bytes_of("o.c");
        let left = store.bytes_of("o.c.left");
        if put.is_ok() {
            done = done.saturating_add(1);
            assert!(rt; text == Some(TEXT) && left == Some(BODIES), "{failing}");
        } else {
            let is_so = text == Some(b"old".as_slice()) && left == Some(BEFORE);
            assert!(rt; is_so && put != Err(PutFault::Halfway), "{failing}");
        }
        assert!(rt; store.bytes_of("o.c.new").is_none(), "{failing}");
        assert!(rt; store.bytes_of("o.c.left.new").is_none(), "{failing}");
    }
    assert!(rt; done > 10 && done < 20, "{done}");
    Ok(())
}

/// All calls from one on fail. Once OUT.left has its bodies it can't be put back, and the lock stays.
#[test]
fn all_calls_fail_from_one_on(rt: HostRuntime) -> Result<(), Fail> {
    let alloc = rt.alloc();
    let job = job_of(alloc, b"old", TEXT, leaving(alloc, None)?)?;
    let mut halves = 0_usize;
    for failing in 0_u64..30 {
        let mut store = store_of(alloc, b"old", None, (failing..99).collect(alloc)?)?;
        let put = put_job(alloc, &mut store, &job);
        let text = store.bytes_of("o.c");
        let left = store.bytes_of("o.c.left");
        match put {
            Ok(()) => assert!(rt; text == Some(TEXT) && left == Some(BODIES), "{failing}"),
            Err(PutFault::Halfway) => {
                halves = halves.saturating_add(1);
                let is_so = text == Some(b"old".as_slice()) && left == Some(BODIES);
                assert!(rt; is_so, "{failing}");
            }
            Err(_) => {
                let is_so = text == Some(b"old".as_slice()) && left.is_none();
                assert!(rt; is_so, "{failing}");
            }
        }
    }
    assert!(rt; halves == 2, "{halves}");
    Ok(())
}

/// What another call has made, or changed, stays as it is.
#[test]
fn others_are_not_disturbed(rt: HostRuntime) -> Result<(), Fail> {
    let alloc = rt.alloc();
    let job = job_of(alloc, b"old", TEXT, leaving(alloc, Some(BEFORE))?)?;
    for name in ["o.c.new", "o.c.left.new"] {
        let mut store = store_of(alloc, b"old", Some(BEFORE), Vec::new(alloc))?;
        assert!(rt; pb_renew_store::Store::make(&mut store, name, "o.c") == Ok(true));
        assert!(rt;
            put_job(alloc, &mut store, &job) == Err(PutFault::Busy),
            "{name}"
        );
        assert!(rt; store.bytes_of(name) == Some(b"".as_slice()), "{name}");
        assert!(rt; store.bytes_of("o.c") == Some(b"old".as_slice()), "{name}");
    }
    let mut store = store_of(alloc, b"older", Some(BEFORE), Vec::new(alloc))?;
    assert!(rt; put_job(alloc, &mut store, &job) == Err(PutFault::Changed));
    let mut store = store_of(alloc, b"old", Some(BODIES), Vec::new(alloc))?;
    assert!(rt; put_job(alloc, &mut store, &job) == Err(PutFault::Changed));
    assert!(rt; store.bytes_of("o.c.left") == Some(BODIES));
    Ok(())
}
