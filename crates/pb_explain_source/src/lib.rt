//! What a message to a person is made of: a page of text, and the lines of a source that it points at.
//!
//! A `Page` grows by `say`, a part after the other. `Page::point` appends `FILE:L:C: `, a sentence, the line of the file and a
//! caret under the place, in the form that editors jump to. A `Source` is a file's name with its bytes; `Page::text` puts the
//! whole together for a source, and tells no place that isn't one of the source.
#![tactic(auto)]

mod draft;
mod excerpt;
mod page;
mod part;
mod source;
mod tail;

pub use page::Page;
pub use part::Part;
pub use pb_text::{Name, NoMemory, Place, Spot};
pub use source::Source;
