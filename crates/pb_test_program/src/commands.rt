//! The commands, over files of one protocol.

ghost use Rattle.std.specs.Prelude.{◌≤◌};

use pb_cli_file::{Wanted, tell, tell_merged};
use pb_cli_simulate::{Mode, Modes, Options, Shown, Status, replay, sim};
use pb_io::{Folder, MemFile, MemFolder, MemSink, Sink};
use pb_text::{MOST_EVENTS, NoMemory};
use std::alloc::Global;

/// A message with a word, and a kernel.
pub const PROTOCOL: &str = "const N = 2..max;
global protocol P(role W[0..N-1]) {
  A(int32) from W[0] to W[N-1];
  compute K at W[0];
}
";

/// Its kernels.
const KERNELS: &str =
    "/*@ kernel make_A */\n  v[0] = 7;\n/*@ end */\n/*@ kernel take_A */\n/*@ end */\n/*@ kernel k_K */\n/*@ end */\n";

/// Four of its turns.
pub const SCHEDULE: &str = "pabble schedule 2\nseed 0\n0 e\n0 e\n1 w\n1 e\n";

/// What is asked of the protocol `p`, its kernels `k`, its text `t` and the schedule `s`.
#[derive(Clone, Copy, Debug)]
pub enum Asked {
    Verdict,
    Layout,
    Text,
    /// The text with the kernels.
    Merged,
    /// The log of the text.
    Log,
    /// The schedule of the text.
    Schedule,
    /// The log by the schedule.
    Replay,
}

/// All of them, those that want the text last.
pub const ALL: [Asked; 7] = [
    Asked::Verdict,
    Asked::Layout,
    Asked::Text,
    Asked::Merged,
    Asked::Log,
    Asked::Schedule,
    Asked::Replay,
];

/// Those that want the protocol file alone.
pub const OF_FILE: [Asked; 3] = [Asked::Verdict, Asked::Layout, Asked::Text];

/// What is answered: the status, and what the sink has taken.
#[derive(Drop, PartialEq, Eq)]
pub struct Answer {
    pub status: Status,
    pub bytes: Vec<u8>,
}

/// A simulation of N ranks by seed 0, in which each send is eager.
pub fn options(n: u32, shown: Shown) -> Options
    ensures { result.turns ≤ MOST_EVENTS }
{
    Options {
        n,
        seed: 0,
        turns: MOST_EVENTS,
        modes: Modes::Each(Mode::Eager),
        shown,
    }
}

/// The status of a command.
pub fn done<F: Folder, O: Sink>(
    alloc: Global,
    asked: Asked,
    folder: &mut F,
    out: &mut O,
) -> Status {
    let answers = |_seed: u64, _rank: u32, _count: u64| 7;
    match asked {
        Asked::Verdict => tell(alloc, "p", Wanted::Verdict, folder, out),
        Asked::Layout => tell(alloc, "p", Wanted::Layout, folder, out),
        Asked::Text => tell(alloc, "p", Wanted::Text, folder, out),
        Asked::Merged => tell_merged(alloc, "p", "k", folder, out),
        Asked::Log => sim(alloc, "t", options(2, Shown::Log), answers, folder, out),
        Asked::Schedule => sim(
            alloc,
            "t",
            options(2, Shown::Schedule),
            answers,
            folder,
            out,
        ),
        Asked::Replay => replay(alloc, "t", "s", 2, answers, folder, out),
    }
}

/// Adds a file with these bytes.
pub fn add(
    alloc: Global,
    files: &mut Vec<MemFile>,
    name: &str,
    bytes: &[u8],
) -> Result<(), NoMemory> {
    let name = String::from_str(alloc, name)?;
    let bytes = Vec::from_slice(alloc, bytes)?;
    files.push(MemFile { name, bytes })?;
    Ok(())
}

/// A folder of these files whose calls don't fail.
pub fn folder_of(alloc: Global, files: Vec<MemFile>) -> MemFolder {
    MemFolder::new(files, Vec::new(alloc))
}

/// One file.
pub fn one(alloc: Global, name: &str, bytes: &[u8]) -> Result<Vec<MemFile>, NoMemory> {
    let mut files = Vec::new(alloc);
    add(alloc, &mut files, name, bytes)?;
    Ok(files)
}

/// The C text of a protocol.
pub fn text_of(alloc: Global, protocol: &str) -> Result<Vec<u8>, NoMemory> {
    let mut folder = folder_of(alloc, one(alloc, "p", protocol.as_bytes())?);
    Ok(told(alloc, Asked::Text, &mut folder)?.bytes)
}

/// The four files, with this text.
pub fn files(alloc: Global, text: &[u8]) -> Result<Vec<MemFile>, NoMemory> {
    let mut files = Vec::new(alloc);
    add(alloc, &mut files, "p", PROTOCOL.as_bytes())?;
    add(alloc, &mut files, "k", KERNELS.as_bytes())?;
    add(alloc, &mut files, "t", text)?;
    add(alloc, &mut files, "s", SCHEDULE.as_bytes())?;
    Ok(files)
}

/// A command over a folder, with a sink that has room for all.
pub fn told<F: Folder>(alloc: Global, asked: Asked, folder: &mut F) -> Result<Answer, NoMemory> {
    let mut out = MemSink::new(alloc, ROOM, ROOM, Vec::new(alloc))?;
    let status = done(alloc, asked, folder, &mut out);
    let bytes = Vec::from_slice(alloc, out.taken())?;
    Ok(Answer { status, bytes })
}

/// How many bytes an answer may have.
pub const ROOM: usize = 8_192;
