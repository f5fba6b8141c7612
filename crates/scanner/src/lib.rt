// What a text has at a place: white space, fixed tokens, numbers.
#![tactic(auto)]

ghost use Rattle.std.specs.Prelude.{◌≡◌, ◌≤◌, ◌<◌, eqb, length, drop, get_or};
ghost use Rattle.std.specs.List.{prefix_len, zip};
ghost use Rattle.grammar.specs.Tokens.{is_space};
ghost use Rattle.scanner.specs.Scans.{skip_from, digit_value, longer_by, number_from, numeral_from};
ghost use Rattle.scanner.specs.Fixed.{compared, fixed_token};

use refusals::Fault;

// ---- white space

// With how many bytes of it a text begins.
fn spaces(text: &[u8]) -> usize
    ensures { result ≡ prefix_len is_space text.now }
{
    text.iter()
        .take_while(|b| matches!(**b, b' ' | b'\n'))
        .count()
}

// ---- fixed tokens

// How many bytes a text and a word begin with alike.
fn shared(text: &[u8], word: &[u8]) -> usize
    ensures { result ≡ prefix_len (λ p. eqb p.0 p.1) (zip text.now word.now) }
{
    text.iter().zip(word).take_while(|(b, c)| b == c).count()
}

// The word's length where the text has it whole, else the place of the first byte that differs.
#[tactic(auto, using(crate::proofs::CompareLaws::comparing))]
fn compare(text: &[u8], word: &[u8]) -> Result<usize, Fault>
    ensures { result ≡ compared word.now text.now }
{
    let n = shared(text, word);
    if n < word.len() { Err(Fault(n)) } else { Ok(n) }
}

// The same of the fixed token with the text's first byte; a byte that begins no other is a token of its own.
#[tactic(auto, unfolding(tsparql::specs::Strikes::ascii))]
pub fn fixed_token(text: &[u8]) -> Result<usize, Fault>
    ensures { result ≡ compared (fixed_token (get_or text.now 0 0)) text.now }
{
    match text.first() {
        Some(b'&') => compare(text, b"&&"),
        Some(b'|') => compare(text, b"||"),
        Some(b'O') => compare(text, b"OPTIONAL"),
        Some(b'U') => compare(text, b"UNION"),
        Some(b'F') => compare(text, b"FILTER"),
        Some(b'E') => compare(text, b"ENSURE"),
        Some(b'B') => compare(text, b"BOUND"),
        Some(b'T') => compare(text, b"TRUST"),
        Some(b'A') => compare(text, b"AS"),
        Some(_) => Ok(1),
        None => Err(Fault(0)),
    }
}

// ---- numbers

// A number's value, and the place behind it.
#[derive(Clone, Copy)]
pub struct Numeric {
    pub value: u32,
    pub next: usize,
}

// The value of a digit.
fn digit_value(b: u8) -> Option<u32>
    ensures { result ≡ digit_value b }
{
    match b {
        b'0'..=b'9' => Some(u32::from(b - b'0')),
        _ => None,
    }
}

// A value with the byte as one digit more, up to the greatest; none follows a leading 0.
fn longer(value: u32, b: u8, most: u32) -> Option<u32>
    requires { (value ≤ most) × (most < 2000000) }
    ensures { result ≡ longer_by most value b }
{
    let digit = digit_value(b)?;
    let more = value * 10 + digit;
    (0 < value && more <= most).then_some(more)
}

// ---- at a place

// A place of a text, up to its end.
#[derive(Clone, Copy)]
pub struct Cursor<'a> {
    pub text: &'a [u8],
    pub at: usize,
    pub ghost inside: { at ≤ length text.now },
}

impl<'a> Cursor<'a> {
    // The byte there; 0 at the end.
    pub fn byte(&self) -> u8
        ensures { result ≡ get_or self.now.text.now self.now.at 0 }
    {
        self.text.get(self.at).copied().unwrap_or(0)
    }

    // The text from there on.
    #[tactic(auto, using(crate::proofs::SpaceLaws::resting))]
    pub fn rest(&self) -> &'a [u8]
        ensures { result.now ≡ drop self.now.at self.now.text.now }
    {
        &self.text[self.at..]
    }

    // The first place from there on that holds no white space.
    #[tactic(auto, using(crate::proofs::SpaceLaws::skipping))]
    pub fn skip(&self) -> usize
        ensures { result ≡ skip_from self.now.at (drop self.now.at self.now.text.now) }
    {
        self.at + spaces(self.rest())
    }

    // The number whose first digits give a value and which goes on there, as far as it stays within the greatest.
    #[tactic(auto, using(crate::proofs::NumberLaws::reading))]
    fn number(&self, first: u32, most: u32) -> Numeric
        requires { (first ≤ most) × (most < 2000000) }
        ensures { result ≡ number_from most first self.now.at (drop self.now.at self.now.text.now) }
    {
        let mut value = first;
        for (i, b) in self.rest().iter().enumerate() {
            let Some(more) = longer(value, *b, most) else {
                return Numeric {
                    value,
                    next: self.at + i,
                };
            };
            value = more;
        }
        Numeric {
            value,
            next: self.text.len(),
        }
    }

    // A number from l, 0 or 1, to u whose first digit stands there.
    #[tactic(auto, using(crate::proofs::NumberLaws::beginning))]
    pub fn numeral(&self, l: u32, u: u32) -> Option<Numeric>
        requires { (l ≤ 1) × (9 ≤ u) × (u < 2000000) }
        ensures { result ≡ numeral_from l u self.now.at (drop self.now.at self.now.text.now) }
    {
        let Cursor { text, at, .. } = *self;
        let first = digit_value(*text.get(at)?)?;
        if first < l {
            return None;
        }
        let behind = Cursor { text, at: at + 1 };
        Some(behind.number(first, u))
    }
}
