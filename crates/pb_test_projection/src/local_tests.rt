use pb_local::{
    Base, CoreKernel, CoreLabel, Guard, Guards, KernelKind, Lin, Local, NRange, Name, NoMemory,
    Payload, Peer, Role, Stmt, print_local,
};
use std::alloc::Global;

fn fixed(off: i32) -> Lin {
    Lin {
        base: Base::Fixed,
        off,
    }
}

fn param(off: i32) -> Lin {
    Lin {
        base: Base::Param,
        off,
    }
}

fn one(role: u32, at: Lin) -> Guard {
    Guard {
        role,
        low: Some(at),
        high: Some(at),
        from: None,
        to: None,
    }
}

fn only(alloc: Global, guard: Guard) -> Result<Guards, NoMemory> {
    let mut guards = Guards::new(alloc);
    guards.push(guard)?;
    Ok(guards)
}

fn when(alloc: Global, guard: Guard, stmt: Stmt) -> Result<Stmt, NoMemory> {
    let first = vec![in alloc; stmt]?;
    let guards = only(alloc, guard)?;
    Ok(Stmt::If {
        guards,
        first,
        other: Vec::new(alloc),
    })
}

fn name_of(word: &[u8]) -> Result<Name, NoMemory> {
    Name::of(word).ok_or(NoMemory)
}

fn roles(alloc: Global) -> Result<Vec<Role>, NoMemory> {
    let role = Role {
        name: name_of(b"W")?,
        low: fixed(0),
        high: param(-1),
    };
    Ok(vec![in alloc; role]?)
}

fn labels(alloc: Global) -> Result<Vec<CoreLabel>, NoMemory> {
    let label = CoreLabel {
        name: name_of(b"A")?,
        payload: Payload::Uint32(2),
    };
    Ok(vec![in alloc; label]?)
}

fn kernels(alloc: Global) -> Result<Vec<CoreKernel>, NoMemory> {
    let kernel = CoreKernel {
        name: name_of(b"K")?,
        kind: KernelKind::Choice,
    };
    Ok(vec![in alloc; kernel]?)
}

/// The rank 0 sends to the last.
fn body(alloc: Global) -> Result<Vec<Stmt>, NoMemory> {
    let to = Peer {
        role: 0,
        at: param(-1),
    };
    let from = Peer {
        role: 0,
        at: fixed(0),
    };
    let send = when(alloc, one(0, fixed(0)), Stmt::Send { label: 0, to })?;
    let recv = when(alloc, one(0, param(-1)), Stmt::Recv { label: 0, from })?;
    Ok(vec![in alloc; send, recv]?)
}

fn message(alloc: Global) -> Result<Local, NoMemory> {
    let protocol = name_of(b"P")?;
    let roles = roles(alloc)?;
    let labels = labels(alloc)?;
    let kernels = kernels(alloc)?;
    let body = body(alloc)?;
    Ok(Local {
        protocol,
        range: NRange { low: 2, high: None },
        roles,
        labels,
        kernels,
        body,
    })
}

const TEXT: &str = "\
local P
N 2 to max
when W[0]
  send A to W[N-1]
end
when W[N-1]
  recv A from W[0]
end
done
";

fn prints(alloc: Global, local: &Local, text: &str) -> bool {
    match print_local(alloc, local) {
        Ok(printed) => printed.as_slice() == text.as_bytes(),
        Err(_) => false,
    }
}

#[test]
fn prints_a_message(rt: HostRuntime) -> Result<(), NoMemory> {
    let local = message(rt.alloc())?;
    assert!(rt; prints(rt.alloc(), &local, TEXT));
    Ok(())
}

#[test]
fn prints_a_copy(rt: HostRuntime) -> Result<(), NoMemory> {
    let local = message(rt.alloc())?;
    let copy = local.copy(rt.alloc())?;
    assert!(rt; prints(rt.alloc(), &copy, TEXT));
    Ok(())
}
