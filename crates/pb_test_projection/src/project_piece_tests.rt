use crate::trees::{HERE, each, fixed, message, param, stmt, var};
use pb_affine::{Base, Lin, NRange};
use pb_core_language::{CoreKind, CoreRole, CoreStmt};
use pb_local::{CoreKernel, CoreLabel, KernelKind, Local, Name, Payload, Role, Stmt, print_local};
use pb_part_takers::areas_of_roles;
use pb_project_piece::{NoMemory, Setting, put_piece};
use std::alloc::Global;

const FIRST: Lin = Lin {
    base: Base::Fixed,
    off: 0,
};

const LAST: Lin = Lin {
    base: Base::Param,
    off: -1,
};

fn name_of(word: &[u8]) -> Result<Name, NoMemory> {
    Name::of(word).ok_or(NoMemory)
}

fn label(word: &[u8]) -> Result<CoreLabel, NoMemory> {
    Ok(CoreLabel {
        name: name_of(word)?,
        payload: Payload::Unit,
    })
}

fn labels(alloc: Global) -> Result<Vec<CoreLabel>, NoMemory> {
    let a = label(b"A")?;
    let b = label(b"B")?;
    Ok(vec![in alloc; a, b]?)
}

fn roles(alloc: Global) -> Result<Vec<Role>, NoMemory> {
    let role = Role {
        name: name_of(b"W")?,
        low: FIRST,
        high: LAST,
    };
    Ok(vec![in alloc; role]?)
}

fn kernels(alloc: Global) -> Result<Vec<CoreKernel>, NoMemory> {
    let kernel = CoreKernel {
        name: name_of(b"K")?,
        kind: KernelKind::Compute,
    };
    Ok(vec![in alloc; kernel]?)
}

/// The program of a protocol of the role `W[0..N-1]` with the labels A and B and the kernel K.
fn program(alloc: Global, range: NRange, body: Vec<Stmt>) -> Result<Local, NoMemory> {
    let protocol = name_of(b"P")?;
    let roles = roles(alloc)?;
    let labels = labels(alloc)?;
    let kernels = kernels(alloc)?;
    Ok(Local {
        protocol,
        range,
        roles,
        labels,
        kernels,
        body,
    })
}

/// The pieces of a statement alone.
fn pieces(alloc: Global, range: NRange, one: &CoreStmt) -> Result<Vec<Stmt>, NoMemory> {
    let role = CoreRole {
        name: name_of(b"W")?,
        place: HERE,
        low: FIRST,
        high: LAST,
    };
    let whole = areas_of_roles(alloc, &[role], range)?;
    let setting = Setting {
        range,
        roles: 1,
        whole: &whole,
    };
    let mut body = Vec::new(alloc);
    put_piece(one, alloc, &setting, &mut body)?;
    Ok(body)
}

fn printed(alloc: Global, range: NRange, one: &CoreStmt) -> Result<Vec<u8>, NoMemory> {
    let body = pieces(alloc, range, one)?;
    let local = program(alloc, range, body)?;
    print_local(alloc, &local)
}

/// Whether this is printed of a statement alone.
fn prints(alloc: Global, range: NRange, one: &CoreStmt, text: &str) -> bool {
    match printed(alloc, range, one) {
        Ok(printed) => printed.as_slice() == text.as_bytes(),
        Err(_) => false,
    }
}

const FROM_TWO: NRange = NRange { low: 2, high: None };

const MESSAGE: &str = "\
local P
N 2 to max
when W[0]
  send A to W[N-1]
end
when W[N-1]
  recv A from W[0]
end
done
";

#[test]
fn a_message(rt: HostRuntime) {
    let one = message(0, fixed(0), param(-1));
    assert!(rt; prints(rt.alloc(), FROM_TWO, &one, MESSAGE));
}

const DESCENDING: &str = "\
local P
N 2 to max
when W[2..N-1]
  own I-1
  send B to W[i]
end
when W[1..N-2]
  own I
  recv A from W[i-1]
  recv B from W[i+1]
end
when W[0..N-3]
  own I+1
  send A to W[i]
end
done
";

#[test]
fn segments_in_descending_order(rt: HostRuntime) -> Result<(), NoMemory> {
    let list = vec![in rt.alloc(); message(0, var(-1), var(0)), message(1, var(1), var(0))]?;
    let one = stmt(each(fixed(1), param(-2), list));
    assert!(rt; prints(rt.alloc(), FROM_TWO, &one, DESCENDING));
    Ok(())
}

const ASKED: &str = "\
local P
N 2 to max
when W[0]
  for 1 to N-1
    when W[0]
      send A to W[i]
    end
    when W[0]
      recv B from W[i]
    end
  end
else
  when W[1..N-1]
    own I
    recv A from W[0]
    send B to W[0]
  end
end
done
";

#[test]
fn one_rank_asks_all_others(rt: HostRuntime) -> Result<(), NoMemory> {
    let list = vec![in rt.alloc(); message(0, fixed(0), var(0)), message(1, var(0), fixed(0))]?;
    let one = stmt(each(fixed(1), param(-1), list));
    assert!(rt; prints(rt.alloc(), FROM_TWO, &one, ASKED));
    Ok(())
}

const MET: &str = "\
local P
N 2 to max
when W[N-1] or W[0]
  for 0 to N-2
    when W[i]
      send A to W[N-1]
    end
    when W[N-1]
      recv A from W[i]
    end
    when W[0]
      run K
    end
  end
else
  when W[0..N-2]
    own I
    send A to W[N-1]
  end
end
done
";

#[test]
fn a_rank_that_is_met_in_the_loop(rt: HostRuntime) -> Result<(), NoMemory> {
    let run = stmt(CoreKind::Run {
        kernel: 0,
        at: fixed(0),
    });
    let list = vec![in rt.alloc(); message(0, var(0), param(-1)), run]?;
    let one = stmt(each(fixed(0), param(-2), list));
    assert!(rt; prints(rt.alloc(), FROM_TWO, &one, MET));
    Ok(())
}

#[test]
fn a_range_that_is_always_empty(rt: HostRuntime) -> Result<(), NoMemory> {
    let list = vec![in rt.alloc(); message(0, var(0), var(1))]?;
    let one = stmt(each(fixed(5), fixed(2), list));
    assert!(rt; prints(rt.alloc(), FROM_TWO, &one, "local P\nN 2 to max\ndone\n"));
    Ok(())
}

#[test]
fn a_range_that_begins_behind_all(rt: HostRuntime) -> Result<(), NoMemory> {
    let list = vec![in rt.alloc(); message(0, var(0), var(-1))]?;
    let one = stmt(each(fixed(5), param(-1), list));
    let range = NRange {
        low: 2,
        high: Some(4),
    };
    assert!(rt; prints(rt.alloc(), range, &one, "local P\nN 2 to 4\ndone\n"));
    Ok(())
}

#[test]
fn a_collective(rt: HostRuntime) {
    let one = stmt(CoreKind::Barrier);
    assert!(rt;
        prints(
            rt.alloc(),
            FROM_TWO,
            &one,
            "local P\nN 2 to max\nbarrier\ndone\n"
        )
    );
}
