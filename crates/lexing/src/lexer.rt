// The tokens of the readable form, and where they stand in the text.
// Stays a text with a place: where a token stands in the whole text is what faults tell.
ghost use Rattle.std.specs.Prelude.{◌≡◌, ◌+◌, ◌^◌, ◌<◌, ◌≤◌, ◌↔◌, ◌||◌, IsTrue, length, nat_le, nat_lt, not};
ghost use Rattle.lexing.specs.declared.lexer.Kind.TheVariants.{Name};
ghost use Rattle.lexing.specs.Tokens.{nameByte, kind, Extent, TokenOf};

#[derive(Clone, Copy, Debug, PartialEq, Eq)]
pub enum Kind {
    Name,
    Open,
    Close,
    Comma,
    Slash,
    Equals,
    Arrow,
    // a character that begins no token
    Odd,
    // the end of the text
    End,
}

// A word of the text, with its kind and the place of its first byte.
#[derive(Clone, Copy, Debug, PartialEq, Eq)]
pub struct Token<'a> {
    pub kind: Kind,
    pub word: &'a [u8],
    pub start: usize,
}

impl Token<'_> {
    // The place after it.
    pub fn end(self) -> usize
        ensures { self.entry.start + length self.entry.word.now < 2 ^ 64 → result ≡ self.entry.start + length self.entry.word.now }
    {
        self.start.saturating_add(self.word.len())
    }

    pub fn is(self, kind: Kind) -> bool
        ensures { IsTrue result ↔ (self.entry.kind ≡ kind) }
    {
        self.kind == kind
    }

    pub fn is_word(self, word: &[u8]) -> bool
        ensures { IsTrue result ↔ ((self.entry.kind ≡ Name) × (self.entry.word.now ≡ word.now)) }
    {
        self.kind == Kind::Name && self.word == word
    }

    // Whether it is a name, and no word that opens a section or a rank.
    pub fn is_name(self) -> bool {
        self.kind == Kind::Name && !is_reserved(self.word)
    }

    // The number that it writes in decimal, if that fits 32 bits.
    pub fn number(self) -> Option<u32> {
        std::str::from_utf8(self.word).ok()?.parse().ok()
    }
}

fn is_reserved(word: &[u8]) -> bool {
    matches!(
        word,
        b"signs" | b"rank" | b"letters" | b"equations" | b"rules"
    )
}

fn is_name_byte(b: u8) -> bool
    ensures { result ≡ nameByte b }
{
    b.is_ascii_alphanumeric() || b == b'_' || b == b'\''
}

// Whether the byte continues a character of several bytes.
pub(crate) fn is_continuation(b: u8) -> bool
    ensures { result ≡ not (nat_lt b 128 || nat_le 192 b) }
{
    matches!(b, 0x80..=0xbf)
}

// Whether the byte belongs to a token of this kind that began before it: a name goes on, and a character of several bytes is one.
fn continues(kind: Kind, b: u8) -> bool {
    match kind {
        Kind::Name => is_name_byte(b),
        Kind::Odd => is_continuation(b),
        _ => false,
    }
}

// The place of the first byte at or after `from` that is looked for, or of the end of the text.
pub(crate) fn find_from<F: FnMut(&u8) -> bool>(text: &[u8], from: usize, found: F) -> usize
    requires { (state : F) (b : _) → F.pre state b }
    ensures within { result ≤ length text.now }
    ensures forward { from ≤ length text.now → from ≤ result }
{
    let from = from.min(text.len());
    let rest = &text[from..];
    from + rest.iter().position(found).unwrap_or(rest.len())
}

// The place of the first byte at or after `from` that stands neither in blanks nor in a comment.
fn skip_blanks(text: &[u8], from: usize) -> usize
    ensures within { result ≤ length text.now }
    ensures forward { from ≤ length text.now → from ≤ result }
{
    let mut comment = false;
    find_from(text, from, |b| {
        match b {
            b'#' => comment = true,
            b'\n' => comment = false,
            _ => return !comment && !b.is_ascii_whitespace(),
        }
        false
    })
}

// The place after the token of this kind that goes on at `from`.
fn end_of(text: &[u8], from: usize, kind: Kind) -> usize
    requires { from ≤ length text.now }
    ensures { (from ≤ result) × (result ≤ length text.now) }
{
    find_from(text, from, |b| !continues(kind, *b))
}

// The kind of a token, by its first byte and the next, if there is one.
fn kind_of(first: u8, second: Option<u8>) -> Kind
    ensures { result ≡ kind first second }
{
    match first {
        b'(' => Kind::Open,
        b')' => Kind::Close,
        b',' => Kind::Comma,
        b'/' => Kind::Slash,
        b'=' => Kind::Equals,
        b'-' if second == Some(b'>') => Kind::Arrow,
        b if is_name_byte(b) => Kind::Name,
        _ => Kind::Odd,
    }
}

// The kind of the token at `start`, and the place after it.
fn extent(text: &[u8], start: usize) -> (Kind, usize)
    ensures { start ≤ length text.now → Extent (length text.now) start result.0 result.1 }
{
    let Some(first) = text.get(start) else {
        return (Kind::End, start);
    };
    let kind = kind_of(*first, text.get(start + 1).copied());
    if kind == Kind::Arrow {
        return (kind, start + 2);
    }
    (kind, end_of(text, start + 1, kind))
}

// The first token at or after `from`.
pub fn token_from(text: &[u8], from: usize) -> Token<'_>
    ensures { TokenOf text.now from result }
{
    let start = skip_blanks(text, from);
    let (kind, end) = extent(text, start);
    let word = &text[start..end];
    Token { kind, word, start }
}
