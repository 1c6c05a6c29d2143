ghost use Rattle.std.specs.Prelude.{◌≡◌, ◌++◌, OnOk};
ghost use Rattle.pb_types.specs.Rows.{type_head, type_row};

use crate::Element;
use pb_text::{Name, NoMemory, push_decimal};

/// What a label carries in a program.
#[derive(Clone, Copy)]
pub enum Carried {
    /// The words of the protocol.
    Words,
    /// As many elements in each message.
    Fixed { element: Element, count: u32 },
    /// As many elements as the sender says when it runs.
    Open { element: Element },
}

/// Appends the row of a typed label: `/* type NAME TYPE[COUNT] */` or `/* type NAME TYPE[] */`, and its line feed. A label
/// that carries words has no row.
pub fn push_type_row(out: &mut Vec<u8>, label: &Name, carried: Carried) -> Result<(), NoMemory>
    ensures { OnOk result (out.new.items ≡ out.old.items ++ type_row label.now carried) }
{
    match carried {
        Carried::Words => Ok(()),
        Carried::Fixed { element, count } => {
            push_head(out, label, element)?;
            push_decimal(out, u64::from(count))?;
            out.extend_from_slice(b"] */\n")?;
            Ok(())
        }
        Carried::Open { element } => {
            push_head(out, label, element)?;
            out.extend_from_slice(b"] */\n")?;
            Ok(())
        }
    }
}

// Up to the bracket.
fn push_head(out: &mut Vec<u8>, label: &Name, element: Element) -> Result<(), NoMemory>
    ensures { OnOk result (out.new.items ≡ out.old.items ++ type_head label.now element) }
{
    out.extend_from_slice(b"/* type ")?;
    out.extend_from_slice(label.bytes())?;
    out.extend_from_slice(b" ")?;
    out.extend_from_slice(element.spelling())?;
    out.extend_from_slice(b"[")?;
    Ok(())
}
