//! The grammar as a table. Each alternative begins with a token, or is the empty one and the last.

use crate::symbol::{Form, Noun, Symbol as S};
use pb_text::{Key, Mark};

/// The alternatives of a form.
pub fn alternatives(form: Form) -> &'static [&'static [S]] {
    match form {
        Form::File => FILE,
        Form::Top => TOP,
        Form::Role => ROLE,
        Form::RoleRange => ROLE_RANGE,
        Form::MoreRoles => MORE_ROLES,
        Form::Lin => LIN,
        Form::Offset => OFFSET,
        Form::Block => BLOCK,
        Form::Statements => STATEMENTS,
        Form::Items => ITEMS,
        Form::MoreBranches => MORE_BRANCHES,
        Form::Payload => PAYLOAD,
        Form::Carried => CARRIED,
        Form::Count => COUNT,
        Form::Op => OP,
        Form::FirstEnd => FIRST_END,
        Form::FirstIndex => FIRST_INDEX,
        Form::FirstInside => FIRST_INSIDE,
        Form::FirstAfter => FIRST_AFTER,
        Form::AnyEnd => ANY_END,
        Form::AnyIndex => ANY_INDEX,
        Form::AnyInside => ANY_INSIDE,
        Form::AnyAfter => ANY_AFTER,
        Form::PlainEnd => PLAIN_END,
        Form::PlainIndex => PLAIN_INDEX,
    }
}

const FILE: &[&[S]] = &[&[
    S::Key(Key::Const),
    S::Name(Noun::Constant),
    S::Mark(Mark::Equals),
    S::Number,
    S::Mark(Mark::Dots),
    S::Form(Form::Top),
    S::Mark(Mark::Semicolon),
    S::Key(Key::Global),
    S::Key(Key::Protocol),
    S::Name(Noun::Protocol),
    S::Mark(Mark::LeftParen),
    S::Form(Form::Role),
    S::Form(Form::MoreRoles),
    S::Mark(Mark::RightParen),
    S::Form(Form::Block),
    S::End,
]];

const TOP: &[&[S]] = &[&[S::Number], &[S::Key(Key::Max)]];

const ROLE: &[&[S]] = &[&[
    S::Key(Key::Role),
    S::Name(Noun::Role),
    S::Form(Form::RoleRange),
]];

const ROLE_RANGE: &[&[S]] = &[
    &[
        S::Mark(Mark::LeftBracket),
        S::Form(Form::Lin),
        S::Mark(Mark::Dots),
        S::Form(Form::Lin),
        S::Mark(Mark::RightBracket),
    ],
    &[],
];

const MORE_ROLES: &[&[S]] = &[
    &[
        S::Mark(Mark::Comma),
        S::Form(Form::Role),
        S::Form(Form::MoreRoles),
    ],
    &[],
];

const LIN: &[&[S]] = &[
    &[S::Number],
    &[S::Name(Noun::Variable), S::Form(Form::Offset)],
];

const OFFSET: &[&[S]] = &[
    &[S::Mark(Mark::Plus), S::Number],
    &[S::Mark(Mark::Minus), S::Number],
    &[],
];

const BLOCK: &[&[S]] = &[&[
    S::Mark(Mark::LeftBrace),
    S::Form(Form::Statements),
    S::Mark(Mark::RightBrace),
]];

const STATEMENTS: &[&[S]] = &[
    &[
        S::Name(Noun::Label),
        S::Form(Form::Payload),
        S::Key(Key::From),
        S::Form(Form::FirstEnd),
        S::Mark(Mark::Semicolon),
        S::Form(Form::Statements),
    ],
    &[
        S::Key(Key::Foreach),
        S::Mark(Mark::LeftParen),
        S::Name(Noun::Variable),
        S::Mark(Mark::Colon),
        S::Form(Form::Lin),
        S::Mark(Mark::Dots),
        S::Form(Form::Lin),
        S::Mark(Mark::RightParen),
        S::Mark(Mark::LeftBrace),
        S::Form(Form::Items),
        S::Mark(Mark::RightBrace),
        S::Form(Form::Statements),
    ],
    &[
        S::Key(Key::Rec),
        S::Name(Noun::Loop),
        S::Form(Form::Block),
        S::Form(Form::Statements),
    ],
    &[
        S::Key(Key::Continue),
        S::Name(Noun::Loop),
        S::Mark(Mark::Semicolon),
        S::Form(Form::Statements),
    ],
    &[
        S::Key(Key::Choice),
        S::Name(Noun::Kernel),
        S::Key(Key::At),
        S::Form(Form::PlainEnd),
        S::Form(Form::Block),
        S::Key(Key::Or),
        S::Form(Form::Block),
        S::Form(Form::MoreBranches),
        S::Form(Form::Statements),
    ],
    &[
        S::Key(Key::Compute),
        S::Name(Noun::Kernel),
        S::Key(Key::At),
        S::Form(Form::PlainEnd),
        S::Mark(Mark::Semicolon),
        S::Form(Form::Statements),
    ],
    &[
        S::Key(Key::Barrier),
        S::Mark(Mark::Semicolon),
        S::Form(Form::Statements),
    ],
    &[
        S::Key(Key::Broadcast),
        S::Name(Noun::Label),
        S::Form(Form::Payload),
        S::Key(Key::From),
        S::Form(Form::PlainEnd),
        S::Mark(Mark::Semicolon),
        S::Form(Form::Statements),
    ],
    &[
        S::Key(Key::Reduce),
        S::Name(Noun::Label),
        S::Form(Form::Payload),
        S::Key(Key::With),
        S::Form(Form::Op),
        S::Key(Key::To),
        S::Form(Form::PlainEnd),
        S::Mark(Mark::Semicolon),
        S::Form(Form::Statements),
    ],
    &[
        S::Key(Key::Allreduce),
        S::Name(Noun::Label),
        S::Form(Form::Payload),
        S::Key(Key::With),
        S::Form(Form::Op),
        S::Mark(Mark::Semicolon),
        S::Form(Form::Statements),
    ],
    &[],
];

const ITEMS: &[&[S]] = &[
    &[
        S::Name(Noun::Label),
        S::Form(Form::Payload),
        S::Key(Key::From),
        S::Form(Form::PlainEnd),
        S::Key(Key::To),
        S::Form(Form::PlainEnd),
        S::Mark(Mark::Semicolon),
        S::Form(Form::Items),
    ],
    &[
        S::Key(Key::Compute),
        S::Name(Noun::Kernel),
        S::Key(Key::At),
        S::Form(Form::PlainEnd),
        S::Mark(Mark::Semicolon),
        S::Form(Form::Items),
    ],
    &[],
];

const MORE_BRANCHES: &[&[S]] = &[
    &[
        S::Key(Key::Or),
        S::Form(Form::Block),
        S::Form(Form::MoreBranches),
    ],
    &[],
];

const PAYLOAD: &[&[S]] = &[&[S::Mark(Mark::LeftParen), S::Form(Form::Carried)]];

const CARRIED: &[&[S]] = &[
    &[S::Mark(Mark::RightParen)],
    &[S::Key(Key::Int32), S::Form(Form::Count)],
    &[S::Key(Key::Uint32), S::Form(Form::Count)],
];

const COUNT: &[&[S]] = &[
    &[
        S::Mark(Mark::LeftBracket),
        S::Count,
        S::Mark(Mark::RightBracket),
        S::Mark(Mark::RightParen),
    ],
    &[S::Mark(Mark::RightParen)],
];

const OP: &[&[S]] = &[
    &[S::Key(Key::Min)],
    &[S::Key(Key::Max)],
    &[S::Key(Key::Sum)],
];

const FIRST_END: &[&[S]] = &[&[S::Name(Noun::Role), S::Form(Form::FirstIndex)]];

const FIRST_INDEX: &[&[S]] = &[
    &[S::Mark(Mark::LeftBracket), S::Form(Form::FirstInside)],
    &[S::Key(Key::To), S::Form(Form::AnyEnd)],
];

const FIRST_INSIDE: &[&[S]] = &[
    &[
        S::Number,
        S::Mark(Mark::RightBracket),
        S::Key(Key::To),
        S::Form(Form::AnyEnd),
    ],
    &[S::Name(Noun::Variable), S::Form(Form::FirstAfter)],
];

const FIRST_AFTER: &[&[S]] = &[
    &[
        S::Mark(Mark::RightBracket),
        S::Key(Key::To),
        S::Form(Form::AnyEnd),
    ],
    &[
        S::Mark(Mark::Plus),
        S::Number,
        S::Mark(Mark::RightBracket),
        S::Key(Key::To),
        S::Form(Form::AnyEnd),
    ],
    &[
        S::Mark(Mark::Minus),
        S::Number,
        S::Mark(Mark::RightBracket),
        S::Key(Key::To),
        S::Form(Form::AnyEnd),
    ],
    &[
        S::Mark(Mark::Colon),
        S::Form(Form::Lin),
        S::Mark(Mark::Dots),
        S::Form(Form::Lin),
        S::Mark(Mark::RightBracket),
        S::Key(Key::To),
        S::Form(Form::PlainEnd),
    ],
];

const ANY_END: &[&[S]] = &[&[S::Name(Noun::Role), S::Form(Form::AnyIndex)]];

const ANY_INDEX: &[&[S]] = &[&[S::Mark(Mark::LeftBracket), S::Form(Form::AnyInside)], &[]];

const ANY_INSIDE: &[&[S]] = &[
    &[S::Number, S::Mark(Mark::RightBracket)],
    &[S::Name(Noun::Variable), S::Form(Form::AnyAfter)],
];

const ANY_AFTER: &[&[S]] = &[
    &[S::Mark(Mark::RightBracket)],
    &[S::Mark(Mark::Plus), S::Number, S::Mark(Mark::RightBracket)],
    &[S::Mark(Mark::Minus), S::Number, S::Mark(Mark::RightBracket)],
    &[
        S::Mark(Mark::Colon),
        S::Form(Form::Lin),
        S::Mark(Mark::Dots),
        S::Form(Form::Lin),
        S::Mark(Mark::RightBracket),
    ],
];

const PLAIN_END: &[&[S]] = &[&[S::Name(Noun::Role), S::Form(Form::PlainIndex)]];

const PLAIN_INDEX: &[&[S]] = &[
    &[
        S::Mark(Mark::LeftBracket),
        S::Form(Form::Lin),
        S::Mark(Mark::RightBracket),
    ],
    &[],
];
