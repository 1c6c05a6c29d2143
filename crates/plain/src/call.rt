ghost use Rattle.std.specs.Prelude.{◌≡◌, ◌≤◌, length, None, true};
ghost use Rattle.pb_text.specs.declared.limits.TheConstants.{MOST_NUMBER};
ghost use Rattle.pb_syntax.specs.Plain.{plain_file};
ghost use Rattle.pb_core_language.specs.FileRules.{broken};
ghost use Rattle.pb_core_language.specs.Meaning.{meaning};
ghost use Rattle.pb_core_language.specs.Sound.{is_sound};
ghost use Rattle.pb_core_file_rules.specs.Lowering.{IsCountable};

use crate::fault::Fault;
use crate::report::report;
use crate::request::{Request, read_request};
use crate::status::Status;
use crate::text::Text;
use pb_affine::NRange;
use pb_core::lower;
use pb_io::{Folder, InFault, OutFault, Sink, read_all, write_all};
use pb_parse::parse;
use pb_syntax::FileTree;
use pb_text::Quantity;
use std::alloc::Global;

/// The greatest number of bytes of a protocol file.
const MOST_BYTES: u32 = 1_048_576;

/// Does what the words after the program's name say, FILE N or FILE N M, and writes the report or one status line.
pub fn show<F: Folder, O: Sink>(
    alloc: Global,
    words: &[String],
    folder: &mut F,
    out: &mut O,
) -> Status {
    match report_for(alloc, words, folder) {
        Ok(text) => written(out, text.bytes(), Status::Done),
        Err(fault) => match fault.line(alloc) {
            Ok(text) => written(out, text.bytes(), fault.status()),
            Err(_) => written(out, b"plain: no memory\n", Status::NoMemory),
        },
    }
}

/// Writes the bytes, and tells this status where that can be done.
fn written<O: Sink>(out: &mut O, bytes: &[u8], status: Status) -> Status {
    match write_all(out, bytes) {
        Ok(()) => status,
        Err(OutFault::WriteFault) => Status::WriteFault,
    }
}

fn report_for<F: Folder>(alloc: Global, words: &[String], folder: &mut F) -> Result<Text, Fault> {
    match read_request(words) {
        None => Err(Fault::Usage),
        Some(request) => file_report(alloc, folder, &request),
    }
}

fn file_report<F: Folder>(alloc: Global, folder: &mut F, request: &Request) -> Result<Text, Fault>
    requires { request.now.n ≤ MOST_NUMBER }
{
    match read_all(alloc, folder, request.file, MOST_BYTES) {
        Ok(bytes) => bytes_report(alloc, &bytes, request.n, request.actions),
        Err(InFault::ReadFault) => Err(Fault::ReadFault),
        Err(InFault::TooLong) => Err(Fault::Limit(Quantity::FileBytes)),
        Err(InFault::NoMemory) => Err(Fault::NoMemory),
    }
}

/// The report on the protocol in the bytes of a file.
fn bytes_report(alloc: Global, bytes: &[u8], n: u32, actions: u32) -> Result<Text, Fault>
    requires bytes { length bytes.now ≤ 1048576 }
    requires n { n ≤ MOST_NUMBER }
{
    match parse(alloc, bytes) {
        Ok(file) => tree_report(alloc, &file, n, actions),
        Err(fault) => Err(Fault::from(fault)),
    }
}

/// The report on the protocol of a tree.
fn tree_report(alloc: Global, file: &FileTree, n: u32, actions: u32) -> Result<Text, Fault>
    requires countable { IsCountable (plain_file file.now) }
    requires sound { broken (plain_file file.now) ≡ None → is_sound (meaning (plain_file file.now)) ≡ true }
    requires n { n ≤ MOST_NUMBER }
{
    match lower(alloc, file) {
        Ok(core) => {
            if is_within(core.range, n) {
                report(alloc, &core, i64::from(n), actions as usize)
            } else {
                Err(Fault::OutOfRange {
                    n,
                    range: core.range,
                })
            }
        }
        Err(fault) => Err(Fault::from(fault)),
    }
}

/// Whether the number is one of the range.
fn is_within(range: NRange, n: u32) -> bool {
    let is_below = match range.high {
        Some(high) => n <= high,
        None => true,
    };
    range.low <= n && is_below
}
