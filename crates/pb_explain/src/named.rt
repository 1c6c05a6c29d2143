//! Sentences that name the word that they point at.

use pb_explain_source::{NoMemory, Page, Part, Place, Source};

/// What stands in a sentence before a name, and what behind it.
#[derive(Clone, Copy)]
pub struct Sentence<'a> {
    pub front: &'a str,
    pub behind: &'a str,
}

/// Points at a place, with the word that stands there in the sentence.
pub fn point_at_word(
    page: &mut Page,
    source: &Source,
    place: Place,
    sentence: &Sentence,
) -> Result<(), NoMemory> {
    page.open(place)?;
    page.say(&[Part::Text(sentence.front)])?;
    page.say(&[Part::Bytes(source.word(place))])?;
    page.say(&[Part::Text(sentence.behind)])?;
    page.close(place)
}
