ghost use Rattle.std.specs.Prelude.{◌≡◌, ◌≤◌, ◌+◌, Option};
ghost use Rattle.pb_parse.specs.Limits.{full, above, Refuses};
ghost use Rattle.pb_do_parse.specs.Limits.{sort_of, mark_sort, key_sort, behind_next, part_next, at_start, number_behind_dots, number_passed, sort_passed, passed, counted, counts_next, Steps, IsFirstPassed};
ghost use Rattle.pb_do_parse.specs.declared.limits.Sort.TheVariants.{LeftBrace, Role, Or, Choice, Statement};

use pb_text::{Key, Mark, Quantity, Token, TokenKind};

/// What a token is to the limits.
#[derive(Clone, Copy)]
pub enum Sort {
    LeftBrace,
    RightBrace,
    Semicolon,
    LeftBracket,
    Dots,
    /// `int32` or `uint32`.
    ElementType,
    Role,
    Choice,
    Or,
    /// The keyword of any other statement, `do` too.
    Statement,
    Global,
    Name,
    Number(u32),
    Other,
}

/// What stands right before a token.
#[derive(Clone, Copy)]
pub enum Behind {
    /// A brace or a semicolon: a name begins a message.
    Boundary,
    ElementType,
    /// The `[` behind a type: a number is a payload's count.
    TypeBracket,
    /// `..`: in the constant a number is its upper end.
    Dots,
    Other,
}

/// What of the file a token stands in.
#[derive(Clone, Copy)]
pub enum Part {
    /// Up to the first `;`.
    Constant,
    /// Up to `global`.
    Subprotocols,
    Protocol,
}

/// What is counted behind some tokens.
#[derive(Drop)]
pub struct Counts {
    /// Open braces, 64 at most.
    pub depth: usize,
    pub statements: u32,
    /// Of the protocol. A parameter of a subprotocol is none.
    pub roles: u32,
    /// For each number of open braces the branches so far of the last choice there.
    pub branches: [u32; 65],
    pub last: Behind,
    pub part: Part,
}

impl Sort {
    fn of(kind: &TokenKind) -> Sort
        ensures { result ≡ sort_of kind.now }
    {
        match kind {
            TokenKind::Word(_) => Sort::Name,
            TokenKind::Number(n) => Sort::Number(*n),
            TokenKind::Mark(mark) => Sort::of_mark(*mark),
            TokenKind::Key(key) => Sort::of_key(*key),
        }
    }

    fn of_mark(mark: Mark) -> Sort
        ensures { result ≡ mark_sort mark }
    {
        match mark {
            Mark::LeftBrace => Sort::LeftBrace,
            Mark::RightBrace => Sort::RightBrace,
            Mark::Semicolon => Sort::Semicolon,
            Mark::LeftBracket => Sort::LeftBracket,
            Mark::Dots => Sort::Dots,
            Mark::Equals
            | Mark::LeftParen
            | Mark::RightParen
            | Mark::RightBracket
            | Mark::Comma
            | Mark::Colon
            | Mark::Plus
            | Mark::Minus => Sort::Other,
        }
    }

    fn of_key(key: Key) -> Sort
        ensures { result ≡ key_sort key }
    {
        match key {
            Key::Role => Sort::Role,
            Key::Choice => Sort::Choice,
            Key::Or => Sort::Or,
            Key::Int32 | Key::Uint32 => Sort::ElementType,
            Key::Foreach
            | Key::Rec
            | Key::Continue
            | Key::Compute
            | Key::Barrier
            | Key::Broadcast
            | Key::Reduce
            | Key::Allreduce
            | Key::Do => Sort::Statement,
            Key::Global => Sort::Global,
            Key::Const
            | Key::Protocol
            | Key::From
            | Key::To
            | Key::At
            | Key::With
            | Key::Max
            | Key::Min
            | Key::Sum => Sort::Other,
        }
    }
}

impl Behind {
    // What this token is to the next one.
    fn next(self, sort: Sort) -> Behind
        ensures { result ≡ behind_next self sort }
    {
        match sort {
            Sort::LeftBrace | Sort::RightBrace | Sort::Semicolon => Behind::Boundary,
            Sort::ElementType => Behind::ElementType,
            Sort::Dots => Behind::Dots,
            Sort::LeftBracket => match self {
                Behind::ElementType => Behind::TypeBracket,
                Behind::Boundary | Behind::TypeBracket | Behind::Dots | Behind::Other => {
                    Behind::Other
                }
            },
            Sort::Role
            | Sort::Choice
            | Sort::Or
            | Sort::Statement
            | Sort::Global
            | Sort::Name
            | Sort::Number(_)
            | Sort::Other => Behind::Other,
        }
    }
}

impl Part {
    // What the token behind this one stands in.
    fn next(self, sort: Sort) -> Part
        ensures { result ≡ part_next self sort }
    {
        match sort {
            Sort::Semicolon => match self {
                Part::Constant | Part::Subprotocols => Part::Subprotocols,
                Part::Protocol => Part::Protocol,
            },
            Sort::Global => Part::Protocol,
            Sort::LeftBrace
            | Sort::RightBrace
            | Sort::LeftBracket
            | Sort::Dots
            | Sort::ElementType
            | Sort::Role
            | Sort::Choice
            | Sort::Or
            | Sort::Statement
            | Sort::Name
            | Sort::Number(_)
            | Sort::Other => self,
        }
    }
}

impl Counts {
    fn new() -> Counts
        ensures { result ≡ at_start }
    {
        Counts {
            depth: 0,
            statements: 0,
            roles: 0,
            branches: [0; 65],
            last: Behind::Other,
            part: Part::Constant,
        }
    }

    // One more token, or the limit that it passes.
    fn step(&mut self, token: &Token) -> Result<(), Quantity>
        requires { self.old.depth ≤ 64 }
        ensures gives { Steps result self.new (passed self.old token.now) (counts_next self.old token.now) }
        ensures depth { self.new.depth ≤ 64 }
    {
        let sort = Sort::of(&token.kind);
        let last = self.last.next(sort);
        let part = self.part.next(sort);
        let counted = self.count(sort);
        self.last = last;
        self.part = part;
        counted
    }

    fn count(&mut self, sort: Sort) -> Result<(), Quantity>
        requires { self.old.depth ≤ 64 }
        ensures gives { Steps result self.new (sort_passed self.old sort) (counted self.old sort) }
        ensures depth { self.new.depth ≤ 64 }
    {
        match sort {
            Sort::LeftBrace => self.open_brace(),
            Sort::RightBrace => {
                self.depth = self.depth.saturating_sub(1);
                Ok(())
            }
            Sort::Role => self.role(),
            Sort::Or => self.branch(),
            Sort::Choice => self.choice(),
            Sort::Statement => self.statement(),
            Sort::Name => match self.last {
                Behind::Boundary => self.statement(),
                Behind::ElementType | Behind::TypeBracket | Behind::Dots | Behind::Other => Ok(()),
            },
            Sort::Number(n) => self.number(n),
            Sort::Semicolon
            | Sort::LeftBracket
            | Sort::Dots
            | Sort::ElementType
            | Sort::Global
            | Sort::Other => Ok(()),
        }
    }

    fn open_brace(&mut self) -> Result<(), Quantity>
        ensures gives { Steps result self.new (sort_passed self.old LeftBrace) (counted self.old LeftBrace) }
        ensures depth { self.old.depth ≤ 64 → self.new.depth ≤ 64 }
    {
        if self.depth >= 64 {
            return Err(Quantity::Nesting);
        }
        self.depth += 1;
        Ok(())
    }

    fn role(&mut self) -> Result<(), Quantity>
        ensures gives { Steps result self.new (sort_passed self.old Role) (counted self.old Role) }
        ensures depth { self.new.depth ≡ self.old.depth }
    {
        match self.part {
            Part::Protocol => self.declared_role(),
            Part::Constant | Part::Subprotocols => Ok(()),
        }
    }

    fn declared_role(&mut self) -> Result<(), Quantity>
        ensures gives { Steps result self.new (full 64 self.old.roles Quantity.Roles) (record self.old { roles = self.old.roles + 1 }) }
        ensures depth { self.new.depth ≡ self.old.depth }
    {
        if self.roles >= 64 {
            return Err(Quantity::Roles);
        }
        self.roles += 1;
        Ok(())
    }

    fn branch(&mut self) -> Result<(), Quantity>
        requires { self.old.depth ≤ 64 }
        ensures gives { Steps result self.new (sort_passed self.old Or) (counted self.old Or) }
        ensures depth { self.new.depth ≡ self.old.depth }
    {
        if self.branches[self.depth] >= 64 {
            return Err(Quantity::Branches);
        }
        self.branches[self.depth] += 1;
        Ok(())
    }

    fn choice(&mut self) -> Result<(), Quantity>
        requires { self.old.depth ≤ 64 }
        ensures gives { Steps result self.new (sort_passed self.old Choice) (counted self.old Choice) }
        ensures depth { self.new.depth ≡ self.old.depth }
    {
        if self.statements >= 4000 {
            return Err(Quantity::Statements);
        }
        self.statements += 1;
        self.branches[self.depth] = 1;
        Ok(())
    }

    fn statement(&mut self) -> Result<(), Quantity>
        ensures gives { Steps result self.new (sort_passed self.old Statement) (counted self.old Statement) }
        ensures depth { self.new.depth ≡ self.old.depth }
    {
        if self.statements >= 4000 {
            return Err(Quantity::Statements);
        }
        self.statements += 1;
        Ok(())
    }

    fn number(&self, n: u32) -> Result<(), Quantity>
        ensures { Steps result self.now (number_passed self.now n) self.now }
    {
        match self.last {
            Behind::TypeBracket => at_most(1024, n, Quantity::PayloadCount),
            Behind::Dots => self.number_behind_dots(n),
            Behind::Boundary | Behind::ElementType | Behind::Other => {
                at_most(100_000, n, Quantity::Constant)
            }
        }
    }

    fn number_behind_dots(&self, n: u32) -> Result<(), Quantity>
        ensures { Refuses result (number_behind_dots self.now.part n) }
    {
        match self.part {
            Part::Constant => Ok(()),
            Part::Subprotocols | Part::Protocol => at_most(100_000, n, Quantity::Constant),
        }
    }
}

fn at_most(most: u32, n: u32, quantity: Quantity) -> Result<(), Quantity>
    ensures { Refuses result (above most n quantity) }
{
    if n > most {
        return Err(quantity);
    }
    Ok(())
}

/// The first limit that is passed, and how many tokens stand before the one that passes it.
pub fn first_passed(tokens: &[Token]) -> Option<(Quantity, usize)>
    ensures { IsFirstPassed tokens.now result }
{
    let mut counts = Counts::new();
    for (i, token) in tokens.iter().enumerate() {
        if let Err(quantity) = counts.step(token) {
            return Some((quantity, i));
        }
    }
    None
}
