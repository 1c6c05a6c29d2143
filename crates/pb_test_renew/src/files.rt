//! Trees of protocols, and stores with a text and what is left of it.

ghost use Rattle.std.specs.Prelude.{IfOk};
ghost use Rattle.pb_ctree.specs.Trees.{IsTree};

use pb_cli_file::tree_in;
use pb_io::{MemFile, MemFolder};
use pb_renew::{Form, Losing, Unrenewed, Wanted, place_of, plan_for};
use pb_renew_put::{Job, Leaving, PutFault, is_written, put};
use pb_renew_store::MemStore;
use pb_text::NoMemory;
use std::alloc::Global;
use std::test::Fail;

/// A body with line ends of both kinds, braces, a marker behind a comment, and bytes that are no text.
pub const K: &[u8] =
    b"/*@ kernel k_K */\n  puts(\"}\");\r\n// /*@ end */\n\xff\x00\n\n/*@ end */\n";

/// An empty body.
pub const L: &[u8] = b"/*@ kernel k_L */\n/*@ end */\n";

/// Another body with the name of the first one.
pub const OTHER_K: &[u8] = b"/*@ kernel k_K */\n  puts(\"other\");\n/*@ end */\n";

/// Some bytes, and others behind them.
pub fn joined(alloc: Global, front: &[u8], behind: &[u8]) -> Result<Vec<u8>, NoMemory> {
    let mut bytes = Vec::from_slice(alloc, front)?;
    bytes.extend_from_slice(behind)?;
    Ok(bytes)
}

fn push_file(
    alloc: Global,
    files: &mut Vec<MemFile>,
    name: &str,
    bytes: &[u8],
) -> Result<(), NoMemory> {
    files.push(MemFile {
        name: String::from_str(alloc, name)?,
        bytes: Vec::from_slice(alloc, bytes)?,
    })?;
    Ok(())
}

/// What the protocol's file has.
const SOURCE: &[u8] = b"a protocol";

/// The protocol's file `p`, `o.c`, and `o.c.left` where that is there.
fn files_of(alloc: Global, out: &[u8], left: Option<&[u8]>) -> Result<Vec<MemFile>, NoMemory> {
    let mut files = Vec::new(alloc);
    push_file(alloc, &mut files, "p", SOURCE)?;
    push_file(alloc, &mut files, "o.c", out)?;
    if let Some(bytes) = left {
        push_file(alloc, &mut files, "o.c.left", bytes)?;
    }
    Ok(files)
}

/// A store with `p`, `o.c`, and `o.c.left` where that is there. These calls fail, and at most 64 bytes are written at once.
pub fn store_of(
    alloc: Global,
    out: &[u8],
    left: Option<&[u8]>,
    fails: Vec<u64>,
) -> Result<MemStore, NoMemory> {
    Ok(MemStore::new(alloc, files_of(alloc, out, left)?, 64, fails))
}

/// A job for the store that has such files.
pub fn job_of(
    alloc: Global,
    out: &[u8],
    text: &[u8],
    leaving: Option<Leaving>,
) -> Result<Job, NoMemory> {
    Ok(Job {
        file: String::from_str(alloc, "p")?,
        source: Vec::from_slice(alloc, SOURCE)?,
        out: String::from_str(alloc, "o.c")?,
        old: Some(Vec::from_slice(alloc, out)?),
        text: Vec::from_slice(alloc, text)?,
        leaving,
        keeps_old: false,
    })
}

/// Does a job.
pub fn put_job(alloc: Global, store: &mut MemStore, job: &Job) -> Result<(), PutFault> {
    if is_written(alloc, &job.out, &job.file)? {
        return Err(PutFault::Busy);
    }
    put(alloc, store, job)
}

/// Renews an OUT with these bytes, beside an OUT.left with those, where the store has both.
pub fn renew(
    alloc: Global,
    store: &mut MemStore,
    wanted: &Wanted,
    name: &str,
    losing: Losing,
) -> Result<(), Unrenewed>
    requires { IsTree wanted.now.tree }
{
    let place = place_of(alloc, store, name, losing)?;
    let mut files = Vec::new(alloc);
    for name in [name, "o.c.left"] {
        if let Some(bytes) = store.bytes_of(name) {
            push_file(alloc, &mut files, name, bytes)?;
        }
    }
    let mut folder = MemFolder::new(files, Vec::new(alloc));
    let mut source = Vec::new(alloc);
    if source.extend_from_slice(SOURCE).is_err() {
        return Err(Unrenewed::NoMemory);
    }
    let plan = plan_for(alloc, &mut folder, wanted, "p", source, place, losing)?;
    match put_job(alloc, store, &plan.job) {
        Ok(()) => Ok(()),
        Err(fault) => Err(Unrenewed::unput(fault)),
    }
}

/// The plain text of a protocol that runs these kernels.
pub fn wanted_of(alloc: Global, kernels: &[&str]) -> Result<Wanted, Fail>
    ensures { IfOk result (λ wanted. IsTree wanted.tree) }
{
    let mut text = String::from_str(
        alloc,
        "const N = 2..max;\nglobal protocol P(role W[0..N-1]) {\n",
    )?;
    for kernel in kernels {
        text.push_str("compute ")?;
        text.push_str(kernel)?;
        text.push_str(" at W[0];\n")?;
    }
    text.push_str("}\n")?;
    let mut files = Vec::new(alloc);
    push_file(alloc, &mut files, "p", text.as_bytes())?;
    let mut folder = MemFolder::new(files, Vec::new(alloc));
    match tree_in(alloc, &mut folder, "p") {
        Ok(tree) => Ok(Wanted {
            tree,
            form: Form::Plain,
        }),
        Err(refusal) => Err(Fail::from(refusal)),
    }
}

/// True where the bytes have the part among them.
pub fn has_part(bytes: Option<&[u8]>, part: &[u8]) -> bool {
    match bytes {
        Some(bytes) => bytes.windows(part.len().max(1)).any(|piece| piece == part),
        None => false,
    }
}
