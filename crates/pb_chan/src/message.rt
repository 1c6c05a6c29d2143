use pb_text::Words;

/// A message with its label's number and its words.
#[derive(Drop)]
pub struct Message {
    pub label: u32,
    pub words: Words,
}
