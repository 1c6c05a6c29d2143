//! The way along the grammar, up to the first token that doesn't go on.

use crate::grammar::alternatives;
use crate::symbol::{Form, Symbol};
use pb_text::{NoMemory, Token, TokenKind};
use std::alloc::Global;

/// Where tokens stop to be a file.
#[derive(Drop)]
pub struct Stop {
    /// How many tokens go on.
    pub at: usize,
    /// What could stand there instead.
    pub wanted: Vec<Symbol>,
    /// The form that was tried last.
    pub form: Form,
}

/// What is still to be read, with the next symbol last.
#[derive(Drop)]
struct Walk {
    stack: Vec<Symbol>,
    wanted: Vec<Symbol>,
    form: Form,
}

/// What one step did.
enum Step {
    /// It took a token.
    Took,
    /// It opened a form.
    Opened,
    /// Nothing goes on.
    Stopped,
}

/// Whether the token, or the end, is what the symbol stands for.
fn fits(symbol: Symbol, token: Option<&Token>) -> bool {
    let Some(token) = token else {
        return matches!(symbol, Symbol::End);
    };
    match (symbol, token.kind) {
        (Symbol::Key(key), TokenKind::Key(found)) => key == found,
        (Symbol::Mark(mark), TokenKind::Mark(found)) => mark == found,
        (Symbol::Name(_), TokenKind::Word(_)) => true,
        (Symbol::Number, TokenKind::Number(_)) => true,
        (Symbol::Count, TokenKind::Number(n)) => n > 0,
        _ => false,
    }
}

impl Walk {
    /// The symbols of an alternative are next.
    fn push_all(&mut self, symbols: &[Symbol]) -> Result<(), NoMemory> {
        for symbol in symbols.iter().rev() {
            self.stack.push(*symbol)?;
        }
        Ok(())
    }

    fn open(&mut self, form: Form, token: Option<&Token>) -> Result<Step, NoMemory> {
        self.form = form;
        for symbols in alternatives(form) {
            let Some(first) = symbols.first() else {
                return Ok(Step::Opened);
            };
            if fits(*first, token) {
                self.push_all(symbols)?;
                return Ok(Step::Opened);
            }
            self.wanted.push(*first)?;
        }
        Ok(Step::Stopped)
    }

    fn step(&mut self, token: Option<&Token>) -> Result<Step, NoMemory> {
        let Some(symbol) = self.stack.pop() else {
            return Ok(Step::Stopped);
        };
        if let Symbol::Form(form) = symbol {
            return self.open(form, token);
        }
        if fits(symbol, token) {
            self.wanted.clear();
            return Ok(Step::Took);
        }
        self.wanted.push(symbol)?;
        Ok(Step::Stopped)
    }
}

/// Where the tokens stop to be a file, and what could stand there.
pub fn stop_of(alloc: Global, tokens: &[Token]) -> Result<Stop, NoMemory> {
    let mut walk = Walk {
        stack: Vec::new(alloc),
        wanted: Vec::new(alloc),
        form: Form::File,
    };
    walk.stack.push(Symbol::Form(Form::File))?;
    let mut at = 0usize;
    for _ in 0..tokens.len().saturating_mul(20).saturating_add(100) {
        match walk.step(tokens.get(at))? {
            Step::Took => at = at.saturating_add(1),
            Step::Opened => {}
            Step::Stopped => break,
        }
    }
    Ok(Stop {
        at,
        wanted: walk.wanted,
        form: walk.form,
    })
}
