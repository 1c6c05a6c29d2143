ghost use Rattle.std.specs.Prelude.{◌≡◌};

use crate::status::Status;
use pb_draw_log::LogFault;
use pb_draw_times::TimesFault;
use pb_io::InFault;
use pb_text::{NoMemory, push_decimal};
use std::alloc::Global;
use thiserror::Error;

/// Why there is no picture.
#[derive(Clone, Copy, Debug, Error)]
pub enum Fault {
    /// The words are in no form.
    #[error("Usage")]
    Usage,
    /// The file can't be read.
    #[error("ReadFault")]
    ReadFault,
    /// The file has more than 67,108,864 bytes.
    #[error("TooLong")]
    TooLong,
    /// This line is the first in no form of a log.
    #[error("Malformed")]
    Malformed(u32),
    /// The log's actions wait for each other in a circle.
    #[error("Circle")]
    Circle,
    /// Memory ran out.
    #[error("NoMemory")]
    NoMemory,
}

impl From<NoMemory> for Fault {
    fn from(_error: NoMemory) -> Fault {
        Fault::NoMemory
    }
}

impl From<InFault> for Fault {
    fn from(fault: InFault) -> Fault {
        match fault {
            InFault::ReadFault => Fault::ReadFault,
            InFault::TooLong => Fault::TooLong,
            InFault::NoMemory => Fault::NoMemory,
        }
    }
}

impl From<LogFault> for Fault {
    fn from(fault: LogFault) -> Fault {
        match fault {
            LogFault::BadLine(line) => Fault::Malformed(line),
            LogFault::NoMemory => Fault::NoMemory,
        }
    }
}

impl From<TimesFault> for Fault {
    fn from(fault: TimesFault) -> Fault {
        match fault {
            TimesFault::Circle => Fault::Circle,
            TimesFault::NoMemory => Fault::NoMemory,
        }
    }
}

impl Fault {
    /// How a call with this fault ends. Takes no memory.
    pub fn status(&self) -> Status
        ensures { result ≡ Status.WriteFault → ⊥ }
    {
        match self {
            Fault::Usage => Status::Usage,
            Fault::ReadFault => Status::ReadFault,
            Fault::TooLong => Status::Limit,
            Fault::Malformed(_) => Status::Malformed,
            Fault::Circle => Status::Circle,
            Fault::NoMemory => Status::NoMemory,
        }
    }

    /// The line that tells it.
    pub fn line(&self, alloc: Global) -> Result<Vec<u8>, NoMemory> {
        let mut line = Vec::new(alloc);
        match self {
            Fault::Usage => line.extend_from_slice(USAGE)?,
            Fault::ReadFault => line.extend_from_slice(b"draw: read fault\n")?,
            Fault::TooLong => line.extend_from_slice(b"draw: limit file bytes\n")?,
            Fault::Malformed(number) => {
                line.extend_from_slice(b"draw: log line ")?;
                push_decimal(&mut line, u64::from(*number))?;
                line.extend_from_slice(b" is malformed\n")?;
            }
            Fault::Circle => {
                line.extend_from_slice(
                    b"draw: the log's actions wait for each other in a circle\n",
                )?;
            }
            Fault::NoMemory => line.extend_from_slice(NO_MEMORY)?,
        }
        Ok(line)
    }
}

/// How the program is called.
const USAGE: &[u8] = b"draw: usage: draw LOG [--from LINE] [--to LINE] [--ranks A..B]\n";

/// The line where memory runs out.
pub const NO_MEMORY: &[u8] = b"draw: no memory\n";
