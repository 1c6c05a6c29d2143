use pb_local::{
    Base, CoreKernel, CoreLabel, Guard, Guards, KernelKind, Lin, Local, NRange, Name, NoMemory, Op,
    Payload, Role, Stmt,
};
use pb_types::{Carried, TypesFile, push_type_row, read_types};
use pb_types_fit::{FitFault, fit};
use std::alloc::Global;

/// Types files beside a program with the labels `A ()`, `B int32[3]`, `C uint32`, `D int32` and `E int32`, the roles `M` and
/// `W` and the kernel `K`. `C` is summed, `D` takes the most and `E` the least.
const FITS: &str = "\
=> ok
--
const M = 8192; const L = 0;
D double; B double[M]; C float_complex[3];
=> ok
/* type B double[8192] */
/* type C float_complex[3] */
/* type D double[1] */
--
B int8[1073741824]; C double_complex[67108864]; D float[268435456]; E double[134217728];
=> ok
/* type B int8[1073741824] */
/* type C double_complex[67108864] */
/* type D float[268435456] */
/* type E double[134217728] */
--
B double_complex[]; C int16[]; D uint64[]; E int8[2];
=> ok
/* type B double_complex[] */
/* type C int16[] */
/* type D uint64[] */
/* type E int8[2] */
--
B int8[1073741825];
=> TooLarge 1:8
--
const M = 67108865;
B double_complex[M];
=> TooLarge 2:18
--
B float_complex[134217729];
=> TooLarge 1:17
--
X double[0];
=> UnknownLabel 1:1
--
A double;
=> NoPayload 1:1
--
B double; C double[]; B double[0];
=> LabelTwice 1:23
--
B double[0];
=> ZeroCount 1:10
--
const M = 0; B double[M];
=> ZeroCount 1:23
--
const M = 1; B double[N];
=> UnknownConstant 1:23
--
D float_complex[0];
=> Unordered 1:3
--
E double_complex[];
=> Unordered 1:3
--
const M = 1; const K = 2; const M = 3; const N = 4;
=> ConstantTwice 1:33
--
const N = 4; X double;
=> NameTaken 1:7
--
B double[0]; X double;
=> ZeroCount 1:10
";

/// Names that no constant can have, and names that look like them.
const TAKEN: &str =
    "is ir us ur main size rank N R I a i st x argc argv index to_role to_index from_role from_index v count most \
r_M r_W make_A make_B take_B room_B s_B t_E n_C k_K c_K int typedef _Bool __x nullptr typeof MPI_Send PMPI_Send PABBLE_TRACE pabble_x int32_t my_t \
linux stderr fprintf";

const FREE: &str =
    "M W K A B k_M r_K make_X make_ n s_ MPI mpi_x Pabble is_ si ist countx t_x_ make_BB r_MW Int NN";

fn name(bytes: &[u8]) -> Result<Name, NoMemory> {
    match Name::of(bytes) {
        Some(name) => Ok(name),
        None => Err(NoMemory),
    }
}

fn label(bytes: &[u8], payload: Payload) -> Result<CoreLabel, NoMemory> {
    Ok(CoreLabel {
        name: name(bytes)?,
        payload,
    })
}

fn role(bytes: &[u8]) -> Result<Role, NoMemory> {
    let low = Lin {
        base: Base::Fixed,
        off: 0,
    };
    Ok(Role {
        name: name(bytes)?,
        low,
        high: low,
    })
}

fn labels(alloc: Global) -> Result<Vec<CoreLabel>, NoMemory> {
    let a = label(b"A", Payload::Unit)?;
    let b = label(b"B", Payload::Int32(3))?;
    let c = label(b"C", Payload::Uint32(1))?;
    let d = label(b"D", Payload::Int32(1))?;
    let e = label(b"E", Payload::Int32(1))?;
    Ok(vec![in alloc; a, b, c, d, e]?)
}

fn roles(alloc: Global) -> Result<Vec<Role>, NoMemory> {
    let m = role(b"M")?;
    let w = role(b"W")?;
    Ok(vec![in alloc; m, w]?)
}

fn kernels(alloc: Global) -> Result<Vec<CoreKernel>, NoMemory> {
    let k = CoreKernel {
        name: name(b"K")?,
        kind: KernelKind::Compute,
    };
    Ok(vec![in alloc; k]?)
}

fn body(alloc: Global) -> Result<Vec<Stmt>, NoMemory> {
    let sum = Stmt::Allreduce {
        label: 2,
        op: Op::Sum,
    };
    let most = Stmt::Allreduce {
        label: 3,
        op: Op::Max,
    };
    let least = Stmt::Allreduce {
        label: 4,
        op: Op::Min,
    };
    let first = vec![in alloc; most]?;
    let other = vec![in alloc; least]?;
    let guards = Guards::new(alloc);
    let inner = vec![in alloc;
        Stmt::If {
            guards,
            first,
            other
        },
    ]?;
    let around = Stmt::Loop { id: 0, body: inner };
    Ok(vec![in alloc; sum, around]?)
}

fn program(alloc: Global) -> Result<Local, NoMemory> {
    let protocol = name(b"P")?;
    let roles = roles(alloc)?;
    let labels = labels(alloc)?;
    let kernels = kernels(alloc)?;
    let body = body(alloc)?;
    Ok(Local {
        protocol,
        range: NRange { low: 2, high: None },
        roles,
        labels,
        kernels,
        body,
    })
}

fn told(fault: FitFault) -> (&'static str, u32, u32) {
    match fault {
        FitFault::TooManyConstants(place) => ("TooManyConstants", place.line, place.col),
        FitFault::ConstantTwice(place) => ("ConstantTwice", place.line, place.col),
        FitFault::NameTaken(place) => ("NameTaken", place.line, place.col),
        FitFault::UnknownLabel(place) => ("UnknownLabel", place.line, place.col),
        FitFault::NoPayload(place) => ("NoPayload", place.line, place.col),
        FitFault::LabelTwice(place) => ("LabelTwice", place.line, place.col),
        FitFault::Unordered(place) => ("Unordered", place.line, place.col),
        FitFault::UnknownConstant(place) => ("UnknownConstant", place.line, place.col),
        FitFault::ZeroCount(place) => ("ZeroCount", place.line, place.col),
        FitFault::TooLarge(place) => ("TooLarge", place.line, place.col),
        FitFault::NoMemory => ("NoMemory", 0, 0),
    }
}

fn rows(alloc: Global, program: &Local, carried: &[Carried]) -> Result<Vec<u8>, NoMemory> {
    let mut out = Vec::new(alloc);
    out.extend_from_slice(b"ok\n")?;
    for (label, carried) in program.labels.iter().zip(carried) {
        push_type_row(&mut out, &label.name, *carried)?;
    }
    Ok(out)
}

fn answer(alloc: Global, file: &TypesFile) -> Result<Vec<u8>, NoMemory> {
    let program = program(alloc)?;
    match fit(alloc, file, &program) {
        Ok(carried) => rows(alloc, &program, &carried),
        Err(fault) => {
            let (kind, line, col) = told(fault);
            let text = format!(in alloc; "{kind} {line}:{col}\n")?;
            Ok(text.into_bytes())
        }
    }
}

fn of_text(alloc: Global, text: &str) -> Result<Vec<u8>, NoMemory> {
    if text.len() > 4_096 {
        return Err(NoMemory);
    }
    match read_types(alloc, text.as_bytes()) {
        Ok(file) => answer(alloc, &file),
        Err(_) => Err(NoMemory),
    }
}

fn is_so(alloc: Global, row: &str) -> Result<bool, NoMemory> {
    let Some((file, wanted)) = row.split_once("=> ") else {
        return Ok(false);
    };
    Ok(of_text(alloc, file)?.as_slice() == wanted.as_bytes())
}

#[test]
fn fits_or_not(rt: HostRuntime) -> Result<(), NoMemory> {
    for row in FITS.split("--\n") {
        assert!(rt; is_so(rt.alloc(), row)?, "{row}");
    }
    Ok(())
}

fn with_constant(alloc: Global, name: &str) -> Result<Vec<u8>, NoMemory> {
    let text = format!(in alloc; "const {name} = 1;")?;
    of_text(alloc, text.as_str())
}

#[test]
fn names_of_constants(rt: HostRuntime) -> Result<(), NoMemory> {
    for name in TAKEN.split(' ') {
        assert!(rt;
            with_constant(rt.alloc(), name)?.as_slice() == b"NameTaken 1:7\n".as_slice(),
            "{name}"
        );
    }
    for name in FREE.split(' ') {
        assert!(rt;
            with_constant(rt.alloc(), name)?.as_slice() == b"ok\n".as_slice(),
            "{name}"
        );
    }
    Ok(())
}
