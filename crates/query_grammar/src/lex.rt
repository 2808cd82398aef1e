//! The bytes of a criterion and of an operand.

ghost use Rattle.std.specs.Prelude.{◌≡◌};
ghost use Rattle.query_grammar.specs.Bytes.{is_name_byte, is_word_byte, quote_byte};
ghost use Rattle.query_grammar.specs.Lexical.{lex, lex_along};

/// A kind of quote.
#[derive(Clone, Copy, Debug, PartialEq, Eq)]
pub enum Quote {
    /// `"`
    Double,
    /// `'`
    Single,
}

/// What a word or a text between quotes is.
#[derive(Clone, Copy, Debug, PartialEq, Eq)]
pub enum Part {
    /// What stands before a colon in the payload.
    Prefix,
    /// What a subject is compared with.
    Operand,
}

/// Where in a criterion or an operand its bytes lead.
#[derive(Clone, Copy, Debug, PartialEq, Eq)]
pub enum Lex {
    /// Where a criterion begins.
    Begin,
    /// Behind the brace that opens a level.
    LevelOpen,
    /// In the digits of a level.
    Level,
    /// Behind the sign of a level.
    LevelSign,
    /// Where a name begins.
    NameNext,
    /// In a name.
    InName,
    /// Where a prefix or an operand begins.
    TextNext(Part),
    /// In one that is a word.
    InWord(Part),
    /// In one between quotes.
    InQuote(Part, Quote),
    /// Behind a backslash in it.
    Escape(Part, Quote),
    /// Behind one between quotes.
    TextDone(Part),
    /// Behind the bracket that opens a field.
    FieldOpen,
    /// In the digits of a field.
    Field,
    /// Behind a field, where nothing can follow.
    Done,
}

/// Whether a byte may stand in a name.
fn is_name(c: u8) -> bool
    ensures { result ≡ is_name_byte c }
{
    matches!(c, b'a'..=b'z' | b'A'..=b'Z' | b'0'..=b'9' | b'_' | b'*')
}

/// Whether a byte may stand in a word.
fn is_word(c: u8) -> bool
    ensures { result ≡ is_word_byte c }
{
    is_name(c) || matches!(c, b'+' | b'-' | b'.')
}

impl Lex {
    /// Where one byte more leads.
    pub fn next(self, c: u8) -> Option<Lex>
        ensures { result ≡ lex self c }
    {
        match (self, c) {
            (Lex::Begin, b'{') => Some(Lex::LevelOpen),
            (Lex::LevelOpen | Lex::Level, b'0'..=b'9') => Some(Lex::Level),
            (Lex::Level, b'+' | b'-') => Some(Lex::LevelSign),
            (Lex::Level | Lex::LevelSign, b'}') => Some(Lex::NameNext),
            (Lex::Begin | Lex::NameNext | Lex::InName, _) if is_name(c) => Some(Lex::InName),
            (Lex::InName, b',') => Some(Lex::NameNext),
            (Lex::InName, b':') => Some(Lex::TextNext(Part::Prefix)),
            (Lex::TextNext(part) | Lex::InWord(part), _) if is_word(c) => Some(Lex::InWord(part)),
            (Lex::TextNext(part), b'"') => Some(Lex::InQuote(part, Quote::Double)),
            (Lex::TextNext(part), b'\'') => Some(Lex::InQuote(part, Quote::Single)),
            (Lex::InQuote(part, quote), b'\\') => Some(Lex::Escape(part, quote)),
            (Lex::InQuote(part, quote), _) if c == quote.byte() => Some(Lex::TextDone(part)),
            (Lex::InQuote(part, quote) | Lex::Escape(part, quote), _) => {
                Some(Lex::InQuote(part, quote))
            }
            (Lex::InName | Lex::InWord(Part::Prefix) | Lex::TextDone(Part::Prefix), b'[') => {
                Some(Lex::FieldOpen)
            }
            (Lex::FieldOpen | Lex::Field, b'0'..=b'9') => Some(Lex::Field),
            (Lex::Field, b']') => Some(Lex::Done),
            _ => None,
        }
    }

    /// How many bytes go on from here, and where they lead.
    pub fn along(self, text: &[u8]) -> (usize, Lex)
        ensures { result ≡ lex_along self text.now }
    {
        let mut count = 0;
        let mut state = self;
        for byte in text {
            let Some(next) = state.next(*byte) else {
                return (count, state);
            };
            state = next;
            count += 1;
        }
        (count, state)
    }
}

impl Quote {
    /// The byte of the quote.
    fn byte(self) -> u8
        ensures { result ≡ quote_byte self }
    {
        match self {
            Quote::Double => b'"',
            Quote::Single => b'\'',
        }
    }
}
