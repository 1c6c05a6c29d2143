ghost use Rattle.std.specs.Prelude.{IfOk, OnOk};
ghost use Rattle.pb_explain_source.specs.Pages.{IsPage, IsPageOf};

use crate::draft::Draft;
use crate::excerpt::push_excerpt;
use crate::part::{Part, push_bytes, push_part};
use crate::source::Source;
use pb_text::{NoMemory, Place};
use std::alloc::Global;

/// What a mark stands for.
#[derive(Clone, Copy)]
enum Kind {
    /// `FILE:L:C: `
    Heading,
    /// The line of the file, and a caret below it.
    Excerpt,
}

/// Where something of the file is to stand between the words of a page.
#[derive(Clone, Copy)]
struct Mark {
    /// How many bytes of words stand before it.
    at: usize,
    kind: Kind,
    place: Place,
}

/// A message, which grows: words, and places of a file between them. `text` puts it together with the file.
#[derive(Drop)]
pub struct Page {
    words: Vec<u8>,
    marks: Vec<Mark>,
}

impl Page {
    /// A page without words. Takes no memory.
    pub fn new(alloc: Global) -> Page {
        Page {
            words: Vec::new(alloc),
            marks: Vec::new(alloc),
        }
    }

    /// The words on it, without the places.
    pub fn words(&self) -> &[u8] {
        &self.words
    }

    /// Whether no words stand on it.
    pub fn is_empty(&self) -> bool {
        self.words.is_empty()
    }

    /// Appends the parts, one behind the other.
    pub fn say(&mut self, parts: &[Part]) -> Result<(), NoMemory> {
        for part in parts {
            push_part(&mut self.words, part)?;
        }
        Ok(())
    }

    fn mark(&mut self, kind: Kind, place: Place) -> Result<(), NoMemory> {
        self.marks.push(Mark {
            at: self.words.len(),
            kind,
            place,
        })?;
        Ok(())
    }

    /// Appends `FILE:L:C: `. A sentence follows, and then `close`.
    pub fn open(&mut self, place: Place) -> Result<(), NoMemory> {
        self.mark(Kind::Heading, place)
    }

    /// Ends the sentence, and appends the line of the file with a caret under the place.
    pub fn close(&mut self, place: Place) -> Result<(), NoMemory> {
        push_bytes(&mut self.words, b"\n")?;
        self.mark(Kind::Excerpt, place)
    }

    /// Appends `FILE:L:C: `, a sentence, and the line of the file with a caret under the place.
    pub fn point(&mut self, place: Place, parts: &[Part]) -> Result<(), NoMemory> {
        self.open(place)?;
        self.say(parts)?;
        self.close(place)
    }

    /// The same for a second place, whose sentence begins with `note: `.
    pub fn note(&mut self, place: Place, parts: &[Part]) -> Result<(), NoMemory> {
        self.open(place)?;
        push_bytes(&mut self.words, b"note: ")?;
        self.say(parts)?;
        self.close(place)
    }

    /// The same for what is lawful and mostly a mistake: `warning: `.
    pub fn warn(&mut self, place: Place, parts: &[Part]) -> Result<(), NoMemory> {
        self.open(place)?;
        push_bytes(&mut self.words, b"warning: ")?;
        self.say(parts)?;
        self.close(place)
    }

    /// Appends a line with a remedy.
    pub fn help(&mut self, parts: &[Part]) -> Result<(), NoMemory> {
        push_bytes(&mut self.words, b"help: ")?;
        self.say(parts)?;
        push_bytes(&mut self.words, b"\n")
    }

    /// The whole text of the message on a file.
    ///
    /// A place that is none of the file's isn't told: `FILE: ` stands in place of `FILE:L:C: `, and no line is shown. Words that
    /// tell a place, as `:3:14: ` does, have a dot in place of the blank.
    pub fn text(&self, alloc: Global, source: &Source) -> Result<Vec<u8>, NoMemory>
        ensures { IfOk result (λ text. IsPageOf source.now.file.now source.now.bytes.now text.items) }
    {
        let mut draft = Draft::new(alloc);
        let mut done = 0;
        for mark in &self.marks {
            draft.say(source, self.words.get(done..mark.at).unwrap_or_default())?;
            push_mark(&mut draft, source, mark)?;
            done = mark.at;
        }
        draft.say(source, self.words.get(done..).unwrap_or_default())?;
        Ok(draft.text)
    }
}

/// Appends what a mark stands for, where its place is one of the file's.
fn push_mark(draft: &mut Draft, source: &Source, mark: &Mark) -> Result<(), NoMemory>
    requires { IsPage source.now.file.now source.now.bytes.now draft.old.tail draft.old.text.items }
    ensures { OnOk result (IsPage source.now.file.now source.now.bytes.now draft.new.tail draft.new.text.items) }
{
    let place = mark.place;
    let is_there = source.has(place);
    match mark.kind {
        Kind::Heading if is_there => draft.head(source, place),
        Kind::Heading => push_name(draft, source),
        Kind::Excerpt if is_there => push_excerpt(draft, source, place),
        Kind::Excerpt => Ok(()),
    }
}

/// Appends `FILE: `.
fn push_name(draft: &mut Draft, source: &Source) -> Result<(), NoMemory>
    requires { IsPage source.now.file.now source.now.bytes.now draft.old.tail draft.old.text.items }
    ensures { OnOk result (IsPage source.now.file.now source.now.bytes.now draft.new.tail draft.new.text.items) }
{
    draft.say(source, source.file.as_bytes())?;
    draft.say(source, b": ")
}
