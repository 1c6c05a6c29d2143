ghost use Rattle.std.specs.Prelude.{◌≡◌, ◌≤◌, ◌++◌, codes, OnOk, OnErr};
ghost use Rattle.std.specs.Io.KnownBytes.{Appends};
ghost use Rattle.pb_io.specs.Faults.{Rose};
ghost use Rattle.pb_io.specs.Sinks.{AppendsFront};
ghost use Rattle.pb_cli_status.specs.Lines.{limit_words, line_at};

use crate::broken::write_broken;
use crate::call::{CallWrong, call_words};
use crate::kernel::{KernelKind, KernelWrong, write_kernel};
use crate::parts::write_parts;
use crate::status::Status;
use crate::strip::{StripWrong, strip_words};
use crate::told::{write_malformed, write_number, write_outside, write_ruling};
use itoa::Buffer;
use pb_affine::NRange;
use pb_io::{OutFault, Sink, write_all};
use pb_text::{Name, Place, Quantity};
use thiserror::Error;

/// Why nothing but a status line is written.
#[derive(Clone, Copy, Debug, Error)]
pub enum Refusal {
    /// The words are in no form.
    #[error("Usage")]
    Usage,
    /// A file can't be read.
    #[error("ReadFault")]
    ReadFault,
    /// A file has too many bytes.
    #[error("FileBytes")]
    FileBytes,
    /// Memory ran out.
    #[error("NoMemory")]
    NoMemory,
    /// The bytes are no text of the grammar.
    #[error("Syntax")]
    Syntax(Place),
    /// A quantity of the protocol passes its limit.
    #[error("Limit")]
    Limit(Quantity, Place),
    /// The protocol has more than 4,096 breakpoints.
    #[error("Breakpoints")]
    Breakpoints,
    /// The protocol breaks this rule, first at this place; with the least N and the least rank where the rule speaks of
    /// such, as the name of its role and its index.
    #[error("Broken")]
    Broken {
        rule: u8,
        place: Place,
        n: Option<i64>,
        at: Option<(Name, i64)>,
    },
    /// This line of a kernel file is a marker of another form, opens a body inside one, closes one outside, or opens one that
    /// is never closed.
    #[error("KernelMarker")]
    KernelMarker(u32),
    /// This body of a kernel file is wrong. The prelude has no name.
    #[error("Kernel")]
    Kernel {
        kind: KernelKind,
        name: Option<Name>,
        wrong: KernelWrong,
    },
    /// The bytes are no C text of the program's, first at this place.
    #[error("Text")]
    Text(Place),
    /// This line of a schedule is malformed, or names a rank that has no step.
    #[error("Schedule")]
    Schedule(u32),
    /// A schedule has more than 1,000,000 events.
    #[error("Events")]
    Events,
    /// N is outside the text's range.
    #[error("OutOfRange")]
    OutOfRange {
        n: u32,
        range: NRange,
    },
    /// There would be more than 1,024 ranks.
    #[error("Ranks")]
    Ranks,
    /// More than 16,777,216 words would be in flight.
    #[error("WordsInFlight")]
    WordsInFlight,
    /// So many events were made, and some rank has a step.
    #[error("Turns")]
    Turns(u32),
    /// A count of what the protocol sends has more than 4,096 pieces.
    #[error("Pieces")]
    Pieces,
    /// A subprotocol, or a call of one, is wrong, first at this place.
    #[error("Call")]
    Call(CallWrong, Place),
    /// A strip, an end, or a name beside a strip is wrong, first at this place.
    #[error("Strip")]
    Strip(StripWrong, Place),
    /// The protocol has a loop, first at this place.
    #[error("CostLoop")]
    CostLoop(Place),
    /// The protocol has another action for this rank in the place of that in this line of a log.
    #[error("LogDiffers")]
    LogDiffers {
        line: u32,
        rank: u32,
    },
    /// This rank does more than the protocol has for it, from this line of a log on.
    #[error("LogBeyond")]
    LogBeyond {
        line: u32,
        rank: u32,
    },
    /// This line of a log is malformed.
    #[error("LogMalformed")]
    LogMalformed(u32),
}

impl Refusal {
    ghost use Rattle.pb_cli_status.specs.Lines.{line_of, status_of};

    /// The status that the program ends with. Takes no memory.
    pub fn status(&self) -> Status
        ensures { result ≡ status_of self.now }
    {
        match self {
            Refusal::Usage => Status::Usage,
            Refusal::ReadFault => Status::ReadFault,
            Refusal::FileBytes => Status::Limit,
            Refusal::NoMemory => Status::NoMemory,
            Refusal::Syntax(_) => Status::Refused,
            Refusal::Limit(_, _) => Status::Limit,
            Refusal::Breakpoints => Status::Limit,
            Refusal::Broken { .. } => Status::Refused,
            Refusal::KernelMarker(_) => Status::Kernel,
            Refusal::Kernel { .. } => Status::Kernel,
            Refusal::Text(_) => Status::Text,
            Refusal::Schedule(_) => Status::Schedule,
            Refusal::Events => Status::Limit,
            Refusal::OutOfRange { .. } => Status::OutOfRange,
            Refusal::Ranks => Status::Limit,
            Refusal::WordsInFlight => Status::Limit,
            Refusal::Turns(_) => Status::Turns,
            Refusal::Pieces => Status::Limit,
            Refusal::Call(_, _) => Status::CallFault,
            Refusal::Strip(_, _) => Status::StripFault,
            Refusal::CostLoop(_) => Status::CostFault,
            Refusal::LogDiffers { .. } => Status::NotCovered,
            Refusal::LogBeyond { .. } => Status::NotCovered,
            Refusal::LogMalformed(_) => Status::Log,
        }
    }

    /// Appends the status line to the sink. Takes no memory.
    ///
    /// `WriteFault` comes only where the sink's count of faults rose in this call; then some first bytes were appended.
    pub fn write_line<O: Sink>(&self, out: &mut O) -> Result<(), OutFault>
        ensures whole { OnOk result (Appends (O.taken out.old) (O.taken out.new) (line_of self.now)) }
        ensures front { OnErr result (AppendsFront (O.taken out.old) (O.taken out.new) (line_of self.now)) }
        ensures fault { OnErr result (Rose (O.faults out.old) (O.faults out.new)) }
        ensures later { O.faults out.old ≤ O.faults out.new }
    {
        match self {
            Refusal::Usage => write_all(out, b"pabble: usage\n"),
            Refusal::ReadFault => write_all(out, b"pabble: read fault\n"),
            Refusal::FileBytes => write_all(out, b"pabble: limit file bytes\n"),
            Refusal::NoMemory => write_all(out, b"pabble: no memory\n"),
            Refusal::Syntax(place) => write_at(out, b"pabble: syntax", *place),
            Refusal::Limit(limit, place) => write_at(out, limit_words(*limit), *place),
            Refusal::Breakpoints => write_all(out, b"pabble: limit breakpoints\n"),
            Refusal::Broken { rule, place, n, at } => write_broken(out, *rule, *place, *n, at),
            Refusal::KernelMarker(line) => {
                write_number(out, b"pabble: kernel marker at line ", *line)
            }
            Refusal::Kernel { kind, name, wrong } => write_kernel(out, *kind, name, *wrong),
            Refusal::Text(place) => write_at(out, b"pabble: text", *place),
            Refusal::Schedule(line) => write_number(out, b"pabble: schedule line ", *line),
            Refusal::Events => write_all(out, b"pabble: limit events\n"),
            Refusal::OutOfRange { n, range } => write_outside(out, *n, *range),
            Refusal::Ranks => write_all(out, b"pabble: limit ranks\n"),
            Refusal::WordsInFlight => write_all(out, b"pabble: limit words in flight\n"),
            Refusal::Turns(turns) => write_number(out, b"pabble: turns ", *turns),
            Refusal::Pieces => write_all(out, b"pabble: limit pieces\n"),
            Refusal::Call(wrong, place) => write_at(out, call_words(*wrong), *place),
            Refusal::Strip(wrong, place) => write_at(out, strip_words(*wrong), *place),
            Refusal::CostLoop(place) => write_at(out, b"pabble: cost loop", *place),
            Refusal::LogDiffers { line, rank } => write_ruling(out, *line, *rank, b" differs\n"),
            Refusal::LogBeyond { line, rank } => write_ruling(out, *line, *rank, b" goes beyond\n"),
            Refusal::LogMalformed(line) => write_malformed(out, *line),
        }
    }
}

/// The words of the status line for a limit.
fn limit_words(limit: Quantity) -> &'static [u8]
    ensures { result.now ≡ limit_words limit }
{
    match limit {
        Quantity::FileBytes => b"pabble: limit file bytes",
        Quantity::NumberSize => b"pabble: limit number",
        Quantity::NameLength => b"pabble: limit name",
        Quantity::Nesting => b"pabble: limit nesting",
        Quantity::Statements => b"pabble: limit statements",
        Quantity::Roles => b"pabble: limit roles",
        Quantity::Branches => b"pabble: limit branches",
        Quantity::Constant => b"pabble: limit constant",
        Quantity::PayloadCount => b"pabble: limit payload",
        Quantity::Breakpoints => b"pabble: limit breakpoints",
        Quantity::Ranks => b"pabble: limit ranks",
        Quantity::WordsInFlight => b"pabble: limit words in flight",
        Quantity::TextNesting => b"pabble: limit text nesting",
        Quantity::TextStatements => b"pabble: limit text statements",
        Quantity::Events => b"pabble: limit events",
        Quantity::Pieces => b"pabble: limit pieces",
    }
}

/// Appends a status line that tells a place. Takes no memory.
fn write_at<O: Sink>(out: &mut O, what: &[u8], place: Place) -> Result<(), OutFault>
    ensures whole { OnOk result (Appends (O.taken out.old) (O.taken out.new) (line_at what.now place)) }
    ensures front { OnErr result (AppendsFront (O.taken out.old) (O.taken out.new) (line_at what.now place)) }
    ensures fault { OnErr result (Rose (O.faults out.old) (O.faults out.new)) }
    ensures later { O.faults out.old ≤ O.faults out.new }
{
    let mut line = Buffer::new();
    let mut col = Buffer::new();
    let line = line.format(place.line).as_bytes();
    let col = col.format(place.col).as_bytes();
    write_parts(out, &[what, b" at ", line, b":", col, b"\n"])
}
