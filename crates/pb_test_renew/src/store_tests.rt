use pb_renew_store::{Deed, Failed, FileKind, HostStore, MemFile, MemStore, Store};
use pb_text::NoMemory;
use std::alloc::Global;
use std::fs;
use std::fs::Files;
use std::os::unix::fs::PermissionsExt;
use std::test::Fail;

/// Two files.
fn files(alloc: Global) -> Result<Vec<MemFile>, NoMemory> {
    let mut files = Vec::new(alloc);
    for (name, bytes) in [("a", "first"), ("b", "second")] {
        files.push(MemFile {
            name: String::from_str(alloc, name)?,
            bytes: Vec::from_slice(alloc, bytes.as_bytes())?,
        })?;
    }
    Ok(files)
}

/// Appends all bytes to the file that was made last, in as many calls as it takes, up to a hundred.
fn append_all<S: Store>(store: &mut S, bytes: &[u8]) -> Result<(), Failed> {
    let mut done = 0;
    for _ in 0..100 {
        if done < bytes.len() {
            done += store.append(&bytes[done..])?;
        }
    }
    Ok(())
}

#[test]
fn a_file_is_written_in_pieces(rt: HostRuntime) -> Result<(), Fail> {
    let alloc = rt.alloc();
    for most in [1, 2, 5, 64] {
        assert!(rt; 1 <= most);
        let mut store = MemStore::new(alloc, files(alloc)?, most, Vec::new(alloc));
        let mut other = MemStore::new(alloc, files(alloc)?, most, Vec::new(alloc));
        assert!(rt; store.make("b", "a") == Ok(false), "{most}");
        assert!(rt; store.make("c", "a") == Ok(true), "{most}");
        assert!(rt; append_all(&mut store, b"other") == Ok(()), "{most}");
        assert!(rt; store.sync() == Ok(()), "{most}");
        assert!(rt; store.rename("c", "b") == Ok(()), "{most}");
        assert!(rt; store.remove("a") == Ok(()), "{most}");
        assert!(rt; store.bytes_of("b") == Some(b"other".as_slice()), "{most}");
        assert!(rt; store.kind("a") == Ok(FileKind::Missing), "{most}");
        assert!(rt; store.is_still("a", &None) == Ok(true), "{most}");
        for deed in store.deeds() {
            assert!(rt; other.play(deed), "{deed:?}");
        }
        assert!(rt; other.bytes_of("b") == Some(b"other".as_slice()), "{most}");
        assert!(rt; other.bytes_of("a").is_none(), "{most}");
    }
    Ok(())
}

#[test]
fn each_call_fails_where_it_is_told_to(rt: HostRuntime) -> Result<(), Fail> {
    let alloc = rt.alloc();
    let fails = [0, 1, 2, 4].to_vec(alloc)?;
    let mut store = MemStore::new(alloc, files(alloc)?, 2, fails);
    assert!(rt; store.kind("a") == Err(Failed));
    assert!(rt; store.rename("a", "b") == Err(Failed));
    assert!(rt; store.make("c", "a") == Err(Failed));
    assert!(rt; store.make("c", "a") == Ok(true));
    assert!(rt; store.append(b"xyz") == Err(Failed));
    assert!(rt; store.append(b"xyz") == Ok(2));
    assert!(rt; store.remove("d") == Err(Failed));
    assert!(rt; store.calls() == 7);
    assert!(rt; store.deeds().len() == 3);
    assert!(rt; store.deeds().get(1) == Some(&Deed::spoiled(alloc, "c")?));
    Ok(())
}

#[test]
fn the_files_of_the_system(rt: HostRuntime) -> Result<(), Fail> {
    let id = std::process::id(rt.process());
    let first = format!(in rt.alloc(); "/tmp/pb_test_renew_{id}_first")?;
    let second = format!(in rt.alloc(); "/tmp/pb_test_renew_{id}_second")?;
    let (first, second) = (first.as_str(), second.as_str());
    let bytes = Some(Vec::from_slice(rt.alloc(), b"whole")?);
    let mut store = HostStore::new(rt.alloc(), &rt);
    assert!(rt; store.append(b"x") == Err(Failed));
    assert!(rt; store.make(first, second) == Ok(true));
    assert!(rt; store.make(first, second) == Ok(false));
    assert!(rt; append_all(&mut store, b"whole") == Ok(()));
    assert!(rt; store.sync() == Ok(()));
    assert!(rt; store.settle(first) == Ok(()));
    assert!(rt; store.rename(first, second) == Ok(()));
    assert!(rt; store.kind(first) == Ok(FileKind::Missing));
    assert!(rt; store.is_still(second, &bytes) == Ok(true));
    assert!(rt; store.is_still(second, &None) == Ok(false));
    rt.set_permissions(second, fs::Permissions::from_mode(0o600))?;
    assert!(rt; store.make(first, second) == Ok(true));
    assert!(rt; fs::metadata(&rt, first)?.permissions().mode() & 0o777 == 0o600);
    assert!(rt; store.is_same(first, second) == Ok(false));
    assert!(rt; store.remove(first) == Ok(()));
    fs::hard_link(&rt, second, first)?;
    assert!(rt; store.kind(first) == Ok(FileKind::Shared));
    assert!(rt; store.is_same(first, second) == Ok(true));
    assert!(rt; store.remove(first) == Ok(()));
    assert!(rt; store.remove(second) == Ok(()));
    assert!(rt; store.kind("/dev/null") == Ok(FileKind::Other));
    assert!(rt; store.is_still("/dev/null", &None) == Err(Failed));
    Ok(())
}
