// UTF-8 as RFC 3629 defines it: the character at a place, the longest well-formed prefix, ASCII texts; and Unicode's White_Space.
#![tactic(auto)]

ghost use Rattle.std.specs.Prelude.{◌≡◌, ◌+◌, ◌*◌, ◌%◌, ◌^◌, ◌<◌, length, drop};
ghost use Rattle.utf8.specs.Rfc3629.{lead_of, needed, well_formed, scalar_of, front};
ghost use Rattle.std.specs.Iterator.{YieldsFirst, item_count};
ghost use Rattle.utf8.specs.Chars.{chars, placed, left, ascii, valid_prefix};
ghost use Rattle.utf8.specs.Space.{white_space};

// A character: its scalar value, and its width in bytes, 1 to 4.
#[derive(Clone, Copy)]
pub struct Char {
    pub scalar: u32,
    pub width: usize,
}

// What a first byte says: the width of its character, and the range of the second byte.
#[derive(Clone, Copy)]
pub struct Lead {
    pub width: usize,
    pub low: u8,
    pub high: u8,
}

#[tactic(auto, unfolding(crate::specs::Rfc3629::lead_of))]
pub fn lead_of(a: u8) -> Option<Lead>
    ensures { result ≡ lead_of a }
{
    let (width, low, high) = match a {
        0x00..=0x7F => (1, 0, 0),
        0xC2..=0xDF => (2, 0x80, 0xBF),
        0xE0 => (3, 0xA0, 0xBF),
        0xE1..=0xEC => (3, 0x80, 0xBF),
        0xED => (3, 0x80, 0x9F),
        0xEE..=0xEF => (3, 0x80, 0xBF),
        0xF0 => (4, 0x90, 0xBF),
        0xF1..=0xF3 => (4, 0x80, 0xBF),
        0xF4 => (4, 0x80, 0x8F),
        _ => return None,
    };
    Some(Lead { width, low, high })
}

#[tactic(auto, unfolding(crate::specs::Space::white_space))]
pub fn is_white_space(c: u32) -> bool
    ensures { result ≡ white_space c }
{
    matches!(
        c,
        0x0009..=0x000D
            | 0x0020
            | 0x0085
            | 0x00A0
            | 0x1680
            | 0x2000..=0x200A
            | 0x2028
            | 0x2029
            | 0x202F
            | 0x205F
            | 0x3000
    )
}

// Where a character of w bytes has a k-th byte, that byte is from low to high.
#[tactic(auto, unfolding(crate::specs::Rfc3629::needed))]
fn need(k: usize, w: usize, low: u8, high: u8, x: u8) -> bool
    ensures { result ≡ needed k w low high x }
{
    w < k || (low..=high).contains(&x)
}

// The bytes b, c and d may follow a first byte whose row is `l`, as far as its character has them.
#[tactic(auto, unfolding(crate::specs::Rfc3629::well_formed))]
fn well_formed(l: Lead, b: u8, c: u8, d: u8) -> bool
    ensures { result ≡ well_formed l b c d }
{
    let w = l.width;
    w != 0 && need(2, w, l.low, l.high, b) && need(3, w, 0x80, 0xBF, c) && need(4, w, 0x80, 0xBF, d)
}

// The bits so far, and then the six of a byte 10xxxxxx.
fn joined(bits: u32, x: u8) -> u32
    requires { bits < 2 ^ 26 }
    ensures { result ≡ bits * 64 + x % 64 }
{
    bits * 64 + u32::from(x % 64)
}

// The bits that a character's bytes carry.
#[tactic(auto, unfolding(crate::specs::Rfc3629::scalar_of))]
fn scalar(w: usize, a: u8, b: u8, c: u8, d: u8) -> u32
    ensures { result ≡ scalar_of w a b c d }
{
    match w {
        1 => u32::from(a),
        2 => joined(u32::from(a % 32), b),
        3 => joined(joined(u32::from(a % 16), b), c),
        _ => joined(joined(joined(u32::from(a % 8), b), c), d),
    }
}

// The character that starts at a place, by the row of RFC 3629's table that its first byte has; a place, as `decode` has it. It and `decode` are
// written out where a walk calls them: a call would hand each character back through memory, which costs more than to decode it.
#[inline(always)]
#[tactic(auto, using(crate::proofs::Chars::row_none, crate::proofs::Chars::row_bad, crate::proofs::Chars::row_char))]
fn by_row(s: &[u8], at: usize) -> Option<Char>
    requires { at < length s.now }
    ensures { result ≡ front (drop at s.now) }
{
    let a = s[at];
    let b = text::at(s, at + 1);
    let c = text::at(s, at + 2);
    let d = text::at(s, at + 3);
    let l = lead_of(a)?;
    if !well_formed(l, b, c, d) {
        return None;
    }
    let width = l.width;
    let scalar = scalar(width, a, b, c, d);
    Some(Char { scalar, width })
}

// The character that starts at a place. An ASCII byte is a character by itself, and needs no look at the table.
#[inline(always)]
#[tactic(auto, using(crate::proofs::Chars::ascii_front, crate::proofs::Chars::no_front))]
pub fn decode(s: &[u8], at: usize) -> Option<Char>
    ensures { result ≡ front (drop at s.now) }
{
    if s.len() <= at {
        return None;
    }
    let a = s[at];
    if a < 0x80 {
        let scalar = u32::from(a);
        return Some(Char { scalar, width: 1 });
    }
    by_row(s, at)
}

// Whether a text is ASCII, with no branch on a byte: one beyond ASCII has its highest bit set. The compiler reads eight as one word.
#[tactic(auto, using(crate::proofs::Ascii::few_bits))]
fn few_ascii(s: &[u8]) -> bool
    ensures { result ≡ ascii s.now }
{
    s.iter().fold(0, |bits, b| bits | *b) < 128
}

// Eight bytes at a time, and the last eight by themselves, some of them a second time, so that there is no loop over the bytes that eight does not
// divide. The library's `is_ascii` says the same and was tried: short texts took it a nanosecond or two longer.
pub fn is_ascii(s: &[u8]) -> bool
    ensures { result ≡ ascii s.now }
{
    match s.last_chunk::<8>() {
        Some(last) => {
            let (eights, _) = s.as_chunks::<8>();
            eights.iter().all(|e| few_ascii(e)) && few_ascii(last)
        }
        None => few_ascii(s),
    }
}

// A walk over the characters of a text, each with its place, up to the first place where none starts.
#[derive(Drop)]
pub struct Walk<'a> {
    text: &'a [u8],
    at: usize,
}

impl<'a> Walk<'a> {
    #[tactic(auto, using(crate::proofs::Walks::none_left), unfolding(crate::specs::Chars::left))]
    pub fn new(text: &'a [u8]) -> Walk<'a>
        ensures left { left result ≡ placed 0 (chars text.now) }
        ensures start { (result.text.now ≡ text.now) × (result.at ≡ 0) }
    {
        Walk { text, at: 0 }
    }
}

impl<'a> Iterator for Walk<'a> {
    type Item = (usize, Char);

    ghost next_gives = { YieldsFirst left };

    ghost remaining = { item_count left };

    #[inline(always)]
    #[tactic(auto, using(crate::proofs::Walks::placed_none, crate::proofs::Walks::placed_some, crate::proofs::Walks::char_inside), unfolding(crate::specs::Chars::left))]
    fn next(&mut self) -> Option<(usize, Char)> {
        let at = self.at;
        let c = decode(self.text, at)?;
        self.at = at + c.width;
        Some((at, c))
    }
}

// The length of the longest well-formed prefix, found one character after the other.
fn walked_prefix(s: &[u8]) -> usize
    ensures { result ≡ valid_prefix s.now }
{
    Walk::new(s).map(|(_, c)| c.width).sum()
}

// The length of the longest well-formed prefix. Most fields are ASCII, and so well-formed as a whole.
pub fn valid_prefix(s: &[u8]) -> usize
    ensures { result ≡ valid_prefix s.now }
{
    if is_ascii(s) {
        return s.len();
    }
    walked_prefix(s)
}
