use pb_text::NoMemory;
use pb_types::{TypesFault, read_types};
use std::alloc::Global;

/// Types files, and for each how many constants and rows it has, or where it stops and why.
const READ: &str = "\
=> 0 0
--
// nothing but a comment => with an arrow
=> 0 0
--
/* a */ const M = 8192; // b
const Last=0;
Right double[M];
Left/*c*/double[];
Res double;
a int8[1]; b int16; c int32[ 7 ]; d int64; e uint8; f uint16; g uint32 [ ] ; h uint64; i float; j float_complex[2]; k double_complex;
=> 2 14
--
Right doble;
=> UnknownType(1:7)
--
A B C;
=> UnknownType(1:3)
--
A int;
=> UnknownType(1:3)
--
A int32_t;
=> UnknownType(1:3)
--
A INT32;
=> UnknownType(1:3)
--
const M N = 1;
=> Unexpected(1:9)
--
const M = N;
=> Unexpected(1:11)
--
const M = 1, K = 2;
=> Unexpected(1:12)
--
A double;
const M = 1;
=> Unexpected(2:1)
--
A double[M N];
=> Unexpected(1:12)
--
A double[1;
=> Unexpected(1:11)
--
A double[-1];
=> Unexpected(1:10)
--
A double[1][2];
=> Unexpected(1:12)
--
A (double);
=> Unexpected(1:3)
--
A max;
=> Unexpected(1:3)
--
int32 A;
=> Unexpected(1:1)
--
double;
=> Unexpected(1:7)
--
A float complex;
=> Unexpected(1:9)
--
A double
=> Unexpected(2:1)
--
A double[
=> Unexpected(2:1)
--
A
=> Unexpected(2:1)
--
const
=> Unexpected(2:1)
--
A double; $
=> BadByte(1:11)
--
A doble; /* open
=> OpenComment(1:10)
--
A doble[2000000001];
=> NumberTooLarge(1:9)
--
A int8[2000000000]; A int8[00];
=> 0 2
";

fn told(fault: TypesFault) -> (&'static str, u32, u32) {
    match fault {
        TypesFault::Unexpected(place) => ("Unexpected", place.line, place.col),
        TypesFault::UnknownType(place) => ("UnknownType", place.line, place.col),
        TypesFault::Lex(error) => lexical(error),
        TypesFault::NoMemory => ("NoMemory", 0, 0),
    }
}

fn lexical(error: pb_types::LexError) -> (&'static str, u32, u32) {
    match error {
        pb_types::LexError::BadByte(place) => ("BadByte", place.line, place.col),
        pb_types::LexError::OpenComment(place) => ("OpenComment", place.line, place.col),
        pb_types::LexError::NumberTooLarge(place) => ("NumberTooLarge", place.line, place.col),
        pb_types::LexError::NameTooLong(place) => ("NameTooLong", place.line, place.col),
    }
}

fn answer(alloc: Global, file: &str) -> Result<String, NoMemory> {
    if file.len() > 4_096 {
        return Err(NoMemory);
    }
    match read_types(alloc, file.as_bytes()) {
        Ok(file) => Ok(format!(in alloc; "{} {}", file.constants.len(), file.rows.len())?),
        Err(fault) => {
            let (kind, line, col) = told(fault);
            Ok(format!(in alloc; "{kind}({line}:{col})")?)
        }
    }
}

fn is_so(alloc: Global, row: &str) -> Result<bool, NoMemory> {
    let Some((file, wanted)) = row.rsplit_once("=> ") else {
        return Ok(false);
    };
    Ok(answer(alloc, file)?.as_str() == wanted.trim_end())
}

#[test]
fn reads_or_refuses(rt: HostRuntime) -> Result<(), NoMemory> {
    for row in READ.split("--\n") {
        assert!(rt; is_so(rt.alloc(), row)?, "{row}");
    }
    Ok(())
}

/// A file of each form, which is read as far as each of its bytes.
const WHOLE: &[u8] =
    b"const M = 8; // a\nA double[M];\nB int32[]; /* b */\nC float_complex[12];\nD int8;";

/// How many of these cuts are files.
fn files_of_cuts(alloc: Global) -> Result<usize, NoMemory> {
    let mut files = 0usize;
    for end in 0..WHOLE.len() + 1 {
        match read_types(alloc, &WHOLE[..end]) {
            Ok(_) => files = files.saturating_add(1),
            Err(TypesFault::NoMemory) => return Err(NoMemory),
            Err(_) => {}
        }
    }
    Ok(files)
}

#[test]
fn cut_files(rt: HostRuntime) -> Result<(), NoMemory> {
    let files = files_of_cuts(rt.alloc())?;
    assert!(rt; files == 16, "{files}");
    Ok(())
}

fn is_refused(alloc: Global, bytes: &[u8]) -> bool {
    match bytes.len() <= 64 {
        true => read_types(alloc, bytes).is_err(),
        false => false,
    }
}

#[test]
fn hostile_bytes(rt: HostRuntime) {
    assert!(rt; is_refused(rt.alloc(), b"\0"));
    assert!(rt; is_refused(rt.alloc(), b"A double;\0"));
    assert!(rt; is_refused(rt.alloc(), b"\xEF\xBB\xBFA double;"));
    assert!(rt; is_refused(rt.alloc(), b"A double[\xC2\xA01];"));
    assert!(rt; is_refused(rt.alloc(), b"A double[18446744073709551617];"));
    assert!(rt; is_refused(rt.alloc(), b"\xFF\xFE"));
}
