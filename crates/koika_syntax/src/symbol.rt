//! Tokens: the symbols, with their bytes.

ghost use Rattle.std.specs.Prelude.{◌≡◌, ◌≢◌, ◌∷◌, [], IfSome, IfNone};
ghost use Rattle.koika_syntax.specs.Symbols.{symbol_text};

/// A symbol: one to three bytes that are neither letters nor digits.
#[derive(Clone, Copy, Debug, PartialEq, Eq)]
pub enum Symbol {
    /// `{`
    LeftBrace,
    /// `}`
    RightBrace,
    /// `(`
    LeftParenthesis,
    /// `)`
    RightParenthesis,
    /// `[`
    LeftBracket,
    /// `]`
    RightBracket,
    /// `;`
    Semicolon,
    /// `:`
    Colon,
    /// `::`
    ColonColon,
    /// `,`
    Comma,
    /// `=`
    Equals,
    /// `.`
    Dot,
    /// `->`
    Arrow,
    /// `+`
    Plus,
    /// `-`
    Minus,
    /// `*`
    Star,
    /// `&`
    Ampersand,
    /// `|`
    Bar,
    /// `^`
    Caret,
    /// `~`
    Tilde,
    /// `==`
    EqualsEquals,
    /// `!=`
    NotEquals,
    /// `<`
    Less,
    /// `<=`
    LessEquals,
    /// `>`
    Greater,
    /// `>=`
    GreaterEquals,
    /// `<<`
    LessLess,
    /// `>>`
    GreaterGreater,
    /// `>>>`
    GreaterGreaterGreater,
    /// `++`
    PlusPlus,
}

impl Symbol {
    /// The bytes of the symbol.
    pub fn text(self) -> &'static [u8]
        ensures { result.now ≡ symbol_text self }
    {
        match self {
            Symbol::LeftBrace => b"{",
            Symbol::RightBrace => b"}",
            Symbol::LeftParenthesis => b"(",
            Symbol::RightParenthesis => b")",
            Symbol::LeftBracket => b"[",
            Symbol::RightBracket => b"]",
            Symbol::Semicolon => b";",
            Symbol::Colon => b":",
            Symbol::ColonColon => b"::",
            Symbol::Comma => b",",
            Symbol::Equals => b"=",
            Symbol::Dot => b".",
            Symbol::Arrow => b"->",
            Symbol::Plus => b"+",
            Symbol::Minus => b"-",
            Symbol::Star => b"*",
            Symbol::Ampersand => b"&",
            Symbol::Bar => b"|",
            Symbol::Caret => b"^",
            Symbol::Tilde => b"~",
            Symbol::EqualsEquals => b"==",
            Symbol::NotEquals => b"!=",
            Symbol::Less => b"<",
            Symbol::LessEquals => b"<=",
            Symbol::Greater => b">",
            Symbol::GreaterEquals => b">=",
            Symbol::LessLess => b"<<",
            Symbol::GreaterGreater => b">>",
            Symbol::GreaterGreaterGreater => b">>>",
            Symbol::PlusPlus => b"++",
        }
    }

    /// The symbol of one byte, if it is one.
    pub(crate) fn of_byte(byte: u8) -> Option<Symbol>
        ensures found { IfSome result (λ symbol. symbol_text symbol ≡ byte ∷ []) }
        ensures absent { IfNone result ((symbol : Symbol) → symbol_text symbol ≢ byte ∷ []) }
    {
        match byte {
            b'{' => Some(Symbol::LeftBrace),
            b'}' => Some(Symbol::RightBrace),
            b'(' => Some(Symbol::LeftParenthesis),
            b')' => Some(Symbol::RightParenthesis),
            b'[' => Some(Symbol::LeftBracket),
            b']' => Some(Symbol::RightBracket),
            b';' => Some(Symbol::Semicolon),
            b':' => Some(Symbol::Colon),
            b',' => Some(Symbol::Comma),
            b'=' => Some(Symbol::Equals),
            b'.' => Some(Symbol::Dot),
            b'+' => Some(Symbol::Plus),
            b'-' => Some(Symbol::Minus),
            b'*' => Some(Symbol::Star),
            b'&' => Some(Symbol::Ampersand),
            b'|' => Some(Symbol::Bar),
            b'^' => Some(Symbol::Caret),
            b'~' => Some(Symbol::Tilde),
            b'<' => Some(Symbol::Less),
            b'>' => Some(Symbol::Greater),
            _ => None,
        }
    }

    /// The symbol of two bytes, if they are one.
    pub(crate) fn of_bytes(first: u8, second: u8) -> Option<Symbol>
        ensures found { IfSome result (λ symbol. symbol_text symbol ≡ first ∷ second ∷ []) }
        ensures absent { IfNone result ((symbol : Symbol) → symbol_text symbol ≢ first ∷ second ∷ []) }
    {
        match (first, second) {
            (b':', b':') => Some(Symbol::ColonColon),
            (b'-', b'>') => Some(Symbol::Arrow),
            (b'=', b'=') => Some(Symbol::EqualsEquals),
            (b'!', b'=') => Some(Symbol::NotEquals),
            (b'<', b'=') => Some(Symbol::LessEquals),
            (b'>', b'=') => Some(Symbol::GreaterEquals),
            (b'<', b'<') => Some(Symbol::LessLess),
            (b'>', b'>') => Some(Symbol::GreaterGreater),
            (b'+', b'+') => Some(Symbol::PlusPlus),
            _ => None,
        }
    }
}
