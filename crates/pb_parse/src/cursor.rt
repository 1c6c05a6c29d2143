ghost use Rattle.std.specs.Prelude.{◌≡◌, ◌≤◌, IfOk};
ghost use Rattle.pb_parse.specs.Gives.{GivesTo, numeral};
ghost use Rattle.pb_text.specs.Places.{first_place, place_after};
ghost use Rattle.pb_syntax.specs.Grammar.{reads_count};
ghost use Rattle.pb_syntax.specs.Reading.{starts, one_at, among, next};
ghost use Rattle.pb_syntax.specs.Readers.{mark_at, key_at, name_at, number_at, mark_next, key_next, word_next, number_next, statement_keys, item_keys};
ghost use Rattle.pb_parse.specs.Gives.{place_at};
ghost use Rattle.pb_syntax.specs.Grammar.{kind_number};

use pb_lex::end_place;
use pb_syntax::{Place, Spot};
use pb_text::{Key, MOST_NUMBER, Mark, Token, TokenKind};
use std::alloc::AllocFailed;

/// Why a form can't be read.
#[derive(Clone, Copy)]
pub enum Stop {
    /// The next token doesn't go on, or there is none.
    Unexpected,
    NoMemory,
}

impl<T: Drop> From<AllocFailed<T>> for Stop {
    ghost use Rattle.std.specs.Prelude.{◌≡◌};
    ghost use Rattle.pb_parse.specs.declared.cursor.Stop.TheVariants.{NoMemory};

    ghost from_gives = { λ _ e. e ≡ NoMemory };

    fn from(_: AllocFailed<T>) -> Self {
        Stop::NoMemory
    }
}

/// A number where it stands.
#[derive(Clone, Copy)]
pub struct Numeral {
    pub value: u32,
    pub place: Place,
}

// Marks have the kinds 0 to 12, in their order, and keys the kinds from here on, in theirs.
const KEYS: u8 = 13;

const NAME: u8 = 37;

const NUMBER: u8 = 38;

const FOREACH: u8 = KEYS + Key::Foreach as u8;

const REC: u8 = KEYS + Key::Rec as u8;

const CONTINUE: u8 = KEYS + Key::Continue as u8;

const CHOICE: u8 = KEYS + Key::Choice as u8;

const COMPUTE: u8 = KEYS + Key::Compute as u8;

const BARRIER: u8 = KEYS + Key::Barrier as u8;

const BROADCAST: u8 = KEYS + Key::Broadcast as u8;

const REDUCE: u8 = KEYS + Key::Reduce as u8;

const ALLREDUCE: u8 = KEYS + Key::Allreduce as u8;

fn kind_number(kind: &TokenKind) -> u8
    ensures { result ≡ kind_number kind.now }
{
    match kind {
        TokenKind::Mark(mark) => *mark as u8,
        TokenKind::Key(key) => KEYS + *key as u8,
        TokenKind::Word(_) => NAME,
        TokenKind::Number(_) => NUMBER,
    }
}

/// The tokens that are left. A method reads one form. Where it can't, it answers `Unexpected`, and the cursor stays before
/// the token that doesn't go on. Where memory runs out, the cursor may stand anywhere behind.
#[derive(Drop)]
pub struct Cursor<'a> {
    pub rest: &'a [Token],
}

impl<'a> Cursor<'a> {
    /// Whether the next token is this mark.
    pub fn at_mark(&self, mark: Mark) -> bool
        ensures { result ≡ starts (mark_next mark) self.now.rest.now }
    {
        match self.rest.first() {
            Some(token) => kind_number(&token.kind) == mark as u8,
            None => false,
        }
    }

    /// Whether the next token is this keyword.
    pub fn at_key(&self, key: Key) -> bool
        ensures { result ≡ starts (key_next key) self.now.rest.now }
    {
        match self.rest.first() {
            Some(token) => kind_number(&token.kind) == KEYS + key as u8,
            None => false,
        }
    }

    /// Whether the next token is a name.
    pub fn at_word(&self) -> bool
        ensures { result ≡ starts word_next self.now.rest.now }
    {
        match self.rest.first() {
            Some(token) => kind_number(&token.kind) == NAME,
            None => false,
        }
    }

    /// Whether the next token is a number.
    pub fn at_number(&self) -> bool
        ensures { result ≡ starts number_next self.now.rest.now }
    {
        match self.rest.first() {
            Some(token) => kind_number(&token.kind) == NUMBER,
            None => false,
        }
    }

    /// Whether the next token begins an item of a `foreach`.
    pub fn at_item(&self) -> bool
        ensures { result ≡ starts (among item_keys) self.now.rest.now }
    {
        match self.rest.first() {
            Some(token) => matches!(kind_number(&token.kind), NAME | COMPUTE),
            None => false,
        }
    }

    /// Whether the next token begins a statement.
    pub fn at_statement(&self) -> bool
        ensures { result ≡ starts (among statement_keys) self.now.rest.now }
    {
        match self.rest.first() {
            Some(token) => matches!(
                kind_number(&token.kind),
                NAME | FOREACH
                    | REC
                    | CONTINUE
                    | CHOICE
                    | COMPUTE
                    | BARRIER
                    | BROADCAST
                    | REDUCE
                    | ALLREDUCE
            ),
            None => false,
        }
    }

    /// This mark, as its place.
    pub fn mark(&mut self, mark: Mark) -> Result<Place, Stop>
        ensures { GivesTo (λ x. x) result self.new.rest.now (mark_at mark self.old.rest.now) }
    {
        match self.rest.split_first() {
            Some((token, rest)) if kind_number(&token.kind) == mark as u8 => {
                self.rest = rest;
                Ok(token.place)
            }
            _ => Err(Stop::Unexpected),
        }
    }

    /// This keyword, as its place.
    pub fn key(&mut self, key: Key) -> Result<Place, Stop>
        ensures { GivesTo (λ x. x) result self.new.rest.now (key_at key self.old.rest.now) }
    {
        match self.rest.split_first() {
            Some((token, rest)) if kind_number(&token.kind) == KEYS + key as u8 => {
                self.rest = rest;
                Ok(token.place)
            }
            _ => Err(Stop::Unexpected),
        }
    }

    /// A name.
    pub fn name(&mut self) -> Result<Spot, Stop>
        ensures { GivesTo (λ x. x) result self.new.rest.now (name_at self.old.rest.now) }
    {
        let Some((token, rest)) = self.rest.split_first() else {
            return Err(Stop::Unexpected);
        };
        match token.kind {
            TokenKind::Word(name) => {
                self.rest = rest;
                Ok(Spot {
                    name,
                    place: token.place,
                })
            }
            _ => Err(Stop::Unexpected),
        }
    }

    /// A number up to 2,000,000,000.
    pub fn number(&mut self) -> Result<Numeral, Stop>
        ensures read { GivesTo numeral result self.new.rest.now (number_at self.old.rest.now) }
        ensures small { IfOk result (λ n. n.value ≤ MOST_NUMBER) }
    {
        let Some((token, rest)) = self.rest.split_first() else {
            return Err(Stop::Unexpected);
        };
        match token.kind {
            TokenKind::Number(value) if value <= MOST_NUMBER => {
                self.rest = rest;
                Ok(Numeral {
                    value,
                    place: token.place,
                })
            }
            _ => Err(Stop::Unexpected),
        }
    }

    /// A number from 1 to 2,000,000,000.
    pub fn nonzero(&mut self) -> Result<Numeral, Stop>
        ensures { GivesTo numeral result self.new.rest.now (one_at reads_count self.old.rest.now) }
    {
        let Some((token, rest)) = self.rest.split_first() else {
            return Err(Stop::Unexpected);
        };
        match token.kind {
            TokenKind::Number(value) if value <= MOST_NUMBER && value != 0 => {
                self.rest = rest;
                Ok(Numeral {
                    value,
                    place: token.place,
                })
            }
            _ => Err(Stop::Unexpected),
        }
    }

    /// The place of the next token, or behind the last of these bytes where there is none.
    pub fn place(&self, bytes: &[u8]) -> Place
        ensures { result ≡ place_at (place_after first_place bytes.now) self.now.rest.now }
    {
        match self.rest.first() {
            Some(token) => token.place,
            None => end_place(bytes),
        }
    }
}
