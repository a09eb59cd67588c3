//! Tokens: the keywords, with their bytes.

ghost use Rattle.std.specs.Prelude.{◌≡◌, ◌≢◌, ◌↔◌, ◌%◌, slice_get, slice_index, IsTrue, IfSome, IfNone};
ghost use Rattle.koika_syntax.specs.declared.keyword.TheConstants.{KEYWORDS, PLACES};
ghost use Rattle.koika_syntax.specs.Keywords.{keyword_text};
ghost use Rattle.koika_syntax.specs.Tree.{read_word, write_word};

/// A word that is no name.
#[derive(Clone, Copy, Debug, PartialEq, Eq)]
pub enum Keyword {
    Reg,
    Input,
    Enum,
    Struct,
    Table,
    Host,
    Fun,
    Rule,
    Schedule,
    Try,
    Then,
    Else,
    If,
    Let,
    Bits,
    Unit,
    Abort,
    Pack,
    Unpack,
    Update,
    Zext,
    Sext,
    Slt,
    Sle,
    Sgt,
    Sge,
    Read0,
    Read1,
    Read2,
    Read3,
    Write0,
    Write1,
    Write2,
    Write3,
    Assert,
}

// Every keyword, in the order of the declaration.
const KEYWORDS: [Keyword; 35] = [
    Keyword::Reg,
    Keyword::Input,
    Keyword::Enum,
    Keyword::Struct,
    Keyword::Table,
    Keyword::Host,
    Keyword::Fun,
    Keyword::Rule,
    Keyword::Schedule,
    Keyword::Try,
    Keyword::Then,
    Keyword::Else,
    Keyword::If,
    Keyword::Let,
    Keyword::Bits,
    Keyword::Unit,
    Keyword::Abort,
    Keyword::Pack,
    Keyword::Unpack,
    Keyword::Update,
    Keyword::Zext,
    Keyword::Sext,
    Keyword::Slt,
    Keyword::Sle,
    Keyword::Sgt,
    Keyword::Sge,
    Keyword::Read0,
    Keyword::Read1,
    Keyword::Read2,
    Keyword::Read3,
    Keyword::Write0,
    Keyword::Write1,
    Keyword::Write2,
    Keyword::Write3,
    Keyword::Assert,
];

// The places of the keywords in that table, 35 for none. That of a keyword is at four times its first
// byte, its middle one and its last one, modulo 128.
const PLACES: [u8; 128] = [
    30, 31, 32, 33, 35, 35, 35, 5, 1, 13, 35, 35, 35, 35, 17, 35, 35, 35, 35, 35, 0, 8, 35, 4, 25,
    7, 19, 35, 35, 23, 35, 35, 18, 35, 35, 10, 35, 35, 35, 24, 35, 35, 35, 35, 22, 35, 35, 35, 35,
    15, 35, 35, 35, 3, 35, 35, 21, 35, 35, 9, 35, 35, 35, 35, 35, 35, 35, 35, 35, 35, 35, 35, 35,
    35, 35, 35, 35, 35, 35, 35, 35, 35, 35, 35, 20, 35, 35, 35, 35, 26, 27, 28, 29, 34, 35, 35, 35,
    35, 35, 35, 35, 35, 35, 16, 35, 35, 35, 35, 11, 35, 35, 14, 12, 35, 35, 35, 35, 35, 2, 35, 35,
    35, 35, 6, 35, 35, 35, 35,
];

impl Keyword {
    /// The bytes of the keyword.
    pub fn text(self) -> &'static [u8]
        ensures { result.now ≡ keyword_text self }
    {
        match self {
            Keyword::Reg => b"reg",
            Keyword::Input => b"input",
            Keyword::Enum => b"enum",
            Keyword::Struct => b"struct",
            Keyword::Table => b"table",
            Keyword::Host => b"host",
            Keyword::Fun => b"fun",
            Keyword::Rule => b"rule",
            Keyword::Schedule => b"schedule",
            Keyword::Try => b"try",
            Keyword::Then => b"then",
            Keyword::Else => b"else",
            Keyword::If => b"if",
            Keyword::Let => b"let",
            Keyword::Bits => b"bits",
            Keyword::Unit => b"unit",
            Keyword::Abort => b"abort",
            Keyword::Pack => b"pack",
            Keyword::Unpack => b"unpack",
            Keyword::Update => b"update",
            Keyword::Zext => b"zext",
            Keyword::Sext => b"sext",
            Keyword::Slt => b"slt",
            Keyword::Sle => b"sle",
            Keyword::Sgt => b"sgt",
            Keyword::Sge => b"sge",
            Keyword::Read0 => b"read0",
            Keyword::Read1 => b"read1",
            Keyword::Read2 => b"read2",
            Keyword::Read3 => b"read3",
            Keyword::Write0 => b"write0",
            Keyword::Write1 => b"write1",
            Keyword::Write2 => b"write2",
            Keyword::Write3 => b"write3",
            Keyword::Assert => b"assert",
        }
    }

    /// The keyword that a word is, if it is one.
    pub(crate) fn of_word(word: &[u8]) -> Option<Keyword>
        ensures found { IfSome result (λ keyword. word.now ≡ keyword_text keyword) }
        ensures absent { IfNone result ((keyword : Keyword) → word.now ≢ keyword_text keyword) }
    {
        if word.len() < 2 {
            return None;
        }
        let mix = 4 * usize::from(word[0])
            + usize::from(word[word.len() / 2])
            + usize::from(word[word.len() - 1]);
        if let Some(keyword) = Keyword::in_place(mix) {
            if keyword.is_spelled(word) {
                return Some(keyword);
            }
        }
        None
    }

    // The keyword that has this place.
    fn in_place(mix: usize) -> Option<Keyword>
        ensures { result ≡ slice_get KEYWORDS (slice_index PLACES (mix % 128)) }
    {
        KEYWORDS.get(usize::from(PLACES[mix % 128])).copied()
    }

    // Whether a word has the bytes of the keyword.
    fn is_spelled(self, word: &[u8]) -> bool
        ensures { IsTrue result ↔ (word.now ≡ keyword_text self) }
    {
        word == self.text()
    }
}

/// How a read at a port from 0 to 3 is written.
pub fn read_word(port: u32) -> Keyword
    ensures { result ≡ read_word port }
{
    match port {
        1 => Keyword::Read1,
        2 => Keyword::Read2,
        3 => Keyword::Read3,
        _ => Keyword::Read0,
    }
}

/// How a write at a port from 0 to 3 is written.
pub fn write_word(port: u32) -> Keyword
    ensures { result ≡ write_word port }
{
    match port {
        1 => Keyword::Write1,
        2 => Keyword::Write2,
        3 => Keyword::Write3,
        _ => Keyword::Write0,
    }
}
