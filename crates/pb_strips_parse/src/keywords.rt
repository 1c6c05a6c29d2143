ghost use Rattle.std.specs.Prelude.{◌≡◌};
ghost use Rattle.pb_strips_grammar.specs.Tokens.{is_columns, kind_here, tokens_here};

use pb_text::{Key, MOST_NUMBER, Name, Token, TokenKind};

// The tokens as they are read: `do` for the word `columns`, and for a `do` a number that no form reads.
pub(crate) fn as_read(mut tokens: Vec<Token>) -> Vec<Token>
    ensures { result.items ≡ tokens_here tokens.items }
{
    for token in tokens.iter_mut() {
        token.kind = kind_here(&token.kind);
    }
    tokens
}

fn kind_here(kind: &TokenKind) -> TokenKind
    ensures { result ≡ kind_here kind.now }
{
    match kind {
        TokenKind::Word(name) if is_columns(name) => TokenKind::Key(Key::Do),
        TokenKind::Key(Key::Do) => TokenKind::Number(MOST_NUMBER + 1),
        _ => *kind,
    }
}

fn is_columns(name: &Name) -> bool
    ensures { result ≡ is_columns name.now }
{
    name.bytes() == b"columns".as_slice()
}
