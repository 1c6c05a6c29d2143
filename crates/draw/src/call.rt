//! The whole program.

ghost use Rattle.std.specs.Prelude.{◌≡◌, ◌≤◌, length};
ghost use Rattle.pb_io.specs.Faults.{Rose};

use crate::fault::{Fault, NO_MEMORY};
use crate::request::{Request, read_request};
use crate::status::Status;
use pb_draw_layout::{Layout, choose, ending, laid_out, stuck_rank, summed};
use pb_draw_log::read_log;
use pb_draw_picture::{Scene, picture};
use pb_draw_times::timed;
use pb_io::{Folder, OutFault, Sink, read_all, write_all};
use pb_text::{MOST_TEXT_BYTES, NoMemory, push_decimal};
use std::alloc::Global;

/// A picture, and the line that is told besides it.
#[derive(Drop)]
struct Drawn {
    picture: Vec<u8>,
    told: Vec<u8>,
}

/// Does what the words behind the program's name say, or tells that there was no memory for them.
///
/// The picture alone goes to `out`, and else one line to `told`. Where events are left out for being too many, a line says so
/// beside the picture. `WriteFault` comes where the picture can't be written; that `told` can't is not told.
pub fn respond<F: Folder, O: Sink, T: Sink>(
    alloc: Global,
    words: Result<Vec<String>, NoMemory>,
    folder: &mut F,
    out: &mut O,
    told: &mut T,
) -> Status
    ensures alone { (result ≡ Status.Done → ⊥) → (result ≡ Status.WriteFault → ⊥) → out.new ≡ out.old }
    ensures fault { result ≡ Status.WriteFault → Rose (O.faults out.old) (O.faults out.new) }
{
    match answer(alloc, &words, folder) {
        Ok(drawn) => deliver(&drawn, out, told),
        Err(fault) => refuse(alloc, fault, told),
    }
}

/// Writes a picture, and what is told besides.
fn deliver<O: Sink, T: Sink>(drawn: &Drawn, out: &mut O, told: &mut T) -> Status
    ensures alone { (result ≡ Status.Done → ⊥) → (result ≡ Status.WriteFault → ⊥) → out.new ≡ out.old }
    ensures fault { result ≡ Status.WriteFault → Rose (O.faults out.old) (O.faults out.new) }
{
    tell(told, &drawn.told);
    match write_all(out, &drawn.picture) {
        Ok(()) => Status::Done,
        Err(OutFault::WriteFault) => {
            tell(told, b"draw: write fault\n");
            Status::WriteFault
        }
    }
}

/// Tells why there is no picture.
fn refuse<T: Sink>(alloc: Global, fault: Fault, told: &mut T) -> Status
    ensures { result ≡ Status.WriteFault → ⊥ }
{
    match fault.line(alloc) {
        Ok(line) => tell(told, &line),
        Err(NoMemory) => tell(told, NO_MEMORY),
    }
    fault.status()
}

/// Writes a line where that can be done.
fn tell<T: Sink>(told: &mut T, line: &[u8]) {
    let _ = write_all(told, line);
}

fn answer<F: Folder>(
    alloc: Global,
    words: &Result<Vec<String>, NoMemory>,
    folder: &mut F,
) -> Result<Drawn, Fault> {
    let request = match words {
        Ok(words) => read_request(words),
        Err(NoMemory) => return Err(Fault::NoMemory),
    };
    let request = match request {
        Some(request) => request,
        None => return Err(Fault::Usage),
    };
    let bytes = read_all(alloc, folder, request.file, MOST_TEXT_BYTES)?;
    answer_of(alloc, &bytes, &request)
}

/// The picture of the log in the bytes of a file.
fn answer_of(alloc: Global, bytes: &[u8], request: &Request<'_>) -> Result<Drawn, Fault>
    requires { length bytes.now ≤ MOST_TEXT_BYTES }
{
    let log = read_log(alloc, bytes)?;
    let times = timed(alloc, &log.entries)?;
    let sums = summed(alloc, &log.entries, &times, log.names.len())?;
    let ending = ending(bytes, log.end);
    let stuck = match ending {
        Some(line) => stuck_rank(line),
        None => None,
    };
    let chosen = choose(alloc, &log.entries, &request.cut)?;
    let layout = laid_out(alloc, &log.entries, &times, chosen, &request.cut, stuck)?;
    let scene = Scene {
        bytes,
        log: &log,
        times: &times,
        layout: &layout,
        sums: &sums,
        ending,
    };
    let picture = picture(alloc, &scene)?;
    Ok(Drawn {
        picture,
        told: left_out(alloc, &layout)?,
    })
}

/// What is told where events are left out for being too many; else nothing.
fn left_out(alloc: Global, layout: &Layout) -> Result<Vec<u8>, NoMemory> {
    let mut line = Vec::new(alloc);
    let drawn = layout.entries.len();
    if drawn < layout.asked {
        line.extend_from_slice(b"draw: the first ")?;
        push_decimal(&mut line, drawn as u64)?;
        line.extend_from_slice(b" of ")?;
        push_decimal(&mut line, layout.asked as u64)?;
        line.extend_from_slice(b" events are drawn; --from and --to choose others\n")?;
    }
    Ok(line)
}
