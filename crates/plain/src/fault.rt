use crate::status::Status;
use crate::text::Text;
use pb_affine::NRange;
use pb_core_language::LowerFault;
use pb_parse::{LexError, ParseFault};
use pb_plain_run::RunFault;
use pb_text::{NoMemory, Place, Quantity};
use std::alloc::Global;
use thiserror::Error;

/// Why nothing but a status line is written.
#[derive(Clone, Copy, Debug, Error)]
pub enum Fault {
    /// The words are in no form.
    #[error("Usage")]
    Usage,
    /// The file can't be read.
    #[error("ReadFault")]
    ReadFault,
    /// Memory ran out.
    #[error("NoMemory")]
    NoMemory,
    /// The bytes are no text of the grammar.
    #[error("Syntax")]
    Syntax(Place),
    /// A quantity passes its limit at this place.
    #[error("LimitAt")]
    LimitAt(Quantity, Place),
    /// A quantity that has no place passes its limit.
    #[error("Limit")]
    Limit(Quantity),
    /// The protocol breaks this rule of 1 to 5, first at this place.
    #[error("Broken")]
    Broken { rule: u8, place: Place },
    /// N is outside the protocol's range.
    #[error("OutOfRange")]
    OutOfRange { n: u32, range: NRange },
}

impl From<NoMemory> for Fault {
    fn from(_error: NoMemory) -> Fault {
        Fault::NoMemory
    }
}

impl From<RunFault> for Fault {
    fn from(fault: RunFault) -> Fault {
        match fault {
            RunFault::TooLarge => Fault::Limit(Quantity::Branches),
            RunFault::NoMemory => Fault::NoMemory,
        }
    }
}

impl From<LowerFault> for Fault {
    fn from(fault: LowerFault) -> Fault {
        match fault {
            LowerFault::Broken { rule, place } => Fault::Broken { rule, place },
            LowerFault::NoMemory => Fault::NoMemory,
        }
    }
}

impl From<ParseFault> for Fault {
    fn from(fault: ParseFault) -> Fault {
        match fault {
            ParseFault::Lex(LexError::BadByte(place) | LexError::OpenComment(place)) => {
                Fault::Syntax(place)
            }
            ParseFault::Lex(LexError::NumberTooLarge(place)) => {
                Fault::LimitAt(Quantity::NumberSize, place)
            }
            ParseFault::Lex(LexError::NameTooLong(place)) => {
                Fault::LimitAt(Quantity::NameLength, place)
            }
            ParseFault::Unexpected(place) => Fault::Syntax(place),
            ParseFault::TooDeep(place) => Fault::LimitAt(Quantity::Nesting, place),
            ParseFault::TooMany(quantity, place) => Fault::LimitAt(quantity, place),
            ParseFault::NoMemory => Fault::NoMemory,
        }
    }
}

impl Fault {
    /// How a call with this fault ends. Takes no memory.
    pub fn status(&self) -> Status {
        match self {
            Fault::Usage => Status::Usage,
            Fault::ReadFault => Status::ReadFault,
            Fault::NoMemory => Status::NoMemory,
            Fault::Syntax(_) => Status::Refused,
            Fault::LimitAt(_, _) => Status::Limit,
            Fault::Limit(_) => Status::Limit,
            Fault::Broken { .. } => Status::Refused,
            Fault::OutOfRange { .. } => Status::OutOfRange,
        }
    }

    /// The status line.
    pub fn line(&self, alloc: Global) -> Result<Text, NoMemory> {
        let mut text = Text::new(alloc);
        text.put(b"plain: ")?;
        match self {
            Fault::Usage => text.put(b"usage")?,
            Fault::ReadFault => text.put(b"read fault")?,
            Fault::NoMemory => text.put(b"no memory")?,
            Fault::Syntax(place) => {
                text.put(b"syntax")?;
                text.put_place(*place)?;
            }
            Fault::LimitAt(quantity, place) => {
                put_limit(&mut text, *quantity)?;
                text.put_place(*place)?;
            }
            Fault::Limit(quantity) => put_limit(&mut text, *quantity)?,
            Fault::Broken { rule, place } => {
                text.put(b"rule ")?;
                text.put_number(u64::from(*rule))?;
                text.put_place(*place)?;
            }
            Fault::OutOfRange { n, range } => put_outside(&mut text, *n, *range)?,
        }
        text.put(b"\n")?;
        Ok(text)
    }
}

fn put_limit(text: &mut Text, quantity: Quantity) -> Result<(), NoMemory> {
    text.put(b"limit ")?;
    text.put(match quantity {
        Quantity::FileBytes => b"file bytes",
        Quantity::NumberSize => b"number",
        Quantity::NameLength => b"name",
        Quantity::Nesting => b"nesting",
        Quantity::Statements => b"statements",
        Quantity::Roles => b"roles",
        Quantity::Branches => b"branches",
        Quantity::Constant => b"constant",
        Quantity::PayloadCount => b"payload",
        Quantity::Breakpoints => b"breakpoints",
        Quantity::Ranks => b"ranks",
        Quantity::WordsInFlight => b"words in flight",
        Quantity::TextNesting => b"text nesting",
        Quantity::TextStatements => b"text statements",
        Quantity::Events => b"events",
        Quantity::Pieces => b"pieces",
    })
}

fn put_outside(text: &mut Text, n: u32, range: NRange) -> Result<(), NoMemory> {
    text.put(b"N = ")?;
    text.put_number(u64::from(n))?;
    text.put(b" outside ")?;
    text.put_number(u64::from(range.low))?;
    text.put(b"..")?;
    match range.high {
        Some(high) => text.put_number(u64::from(high)),
        None => text.put(b"max"),
    }
}
