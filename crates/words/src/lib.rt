// The tokens of a text as words, and where its brackets close. What an array of ends holds behind the last word is free.
#![tactic(auto)]

ghost use Rattle.std.specs.Prelude.{◌≡◌, List, ℕ, ◌+◌, ◌≤◌, ◌<◌, length, get_or};
ghost use Rattle.words.specs.Links.{is_opening, is_closing, closing, LinkedFrom, Linked, Links};

use std::marker::Model;

// The word of a fixed token is its first byte.
pub const LBRACE: u32 = b'{' as u32;

pub const RBRACE: u32 = b'}' as u32;

pub const LPAREN: u32 = b'(' as u32;

pub const RPAREN: u32 = b')' as u32;

pub const LESS: u32 = b'<' as u32;

pub const NOT: u32 = b'!' as u32;

pub const AND: u32 = b'&' as u32;

pub const OR: u32 = b'|' as u32;

pub const OPTIONAL: u32 = b'O' as u32;

pub const UNION: u32 = b'U' as u32;

pub const FILTER: u32 = b'F' as u32;

pub const BOUND: u32 = b'B' as u32;

pub const TRUST: u32 = b'T' as u32;

pub const ENSURE: u32 = b'E' as u32;

// The word of a variable or a number is one of these and its value.
pub const FIRST_VARIABLE: u32 = 256;

pub const FIRST_NUMBER: u32 = 2097152;

pub const FIRST_NEGATIVE: u32 = 4194304;

// The word at a place; 0 behind the last.
pub fn word(t: &[u32], i: usize) -> u32
    ensures { result ≡ get_or t.now i 0 }
{
    if i < t.len() { t[i] } else { 0 }
}

fn opens(w: u32) -> bool
    ensures { result ≡ is_opening w }
{
    matches!(w, LBRACE | LPAREN)
}

fn closes(w: u32) -> bool
    ensures { result ≡ is_closing w }
{
    matches!(w, RBRACE | RPAREN)
}

// The place behind the bracket that is open at a place; the places behind it are known already.
fn end_of(t: &[u32], ends: &[u16], i: usize) -> u16
    requires i_in_bounds { (i < length t.now) × (length t.now ≤ 65535) × (length t.now < length ends.now) }
    requires linked_from { LinkedFrom t.now ends.now (i + 1) }
    ensures { result ≡ closing t.now i }
{
    let w = t[i];
    if closes(w) {
        return (i + 1) as u16;
    }
    let next = ends[i + 1];
    if opens(w) { ends[next as usize] } else { next }
}

// The same for every place, from the last to the first.
pub fn link(t: &[u32], ends: &mut [u16])
    requires { (length t.now ≤ 65535) × (length t.now < length ends.old) }
    ensures { Links t.now ends.old ends.new }
{
    let n = t.len();
    ends[n] = n as u16;
    for i in (0..n).rev() {
        ends[i] = end_of(t, ends, i);
    }
}

// The words of a text, at most 65,535, with the place behind the bracket that is open at each. Contracts see the words.
#[derive(Drop)]
pub struct Text<'a> {
    slice: &'a [u32],
    ends: &'a [u16],
}

impl<'a> Model for Text<'a> {
    ghost Value = { List ℕ };

    ghost view = { λ t. t.slice.now };

    ghost invariant = { λ t. (length t.slice.now ≤ 65535) × Linked t.slice.now t.ends.now };
}

impl<'a> Text<'a> {
    // The words, of which `link` has written the ends.
    #[tactic(auto, using(crate::proofs::LinkLaws::few))]
    pub fn linked(words: &'a [u32], ends: &'a [u16]) -> Text<'a>
        requires { Linked words.now ends.now }
        ensures { result ≡ words.now }
    {
        Text { slice: words, ends }
    }

    // The words, linked into an array of ends.
    pub fn new(words: &'a [u32], ends: &'a mut [u16]) -> Text<'a>
        requires { (length words.now ≤ 65535) × (length words.now < length ends.old) }
        ensures { result ≡ words.now }
    {
        link(words, ends);
        Text::linked(words, ends)
    }

    pub fn words(&self) -> &'a [u32]
        ensures { result.now ≡ self.now }
    {
        let Text { slice, .. } = self;
        slice
    }

    pub fn len(&self) -> usize
        ensures { result ≡ length self.now }
    {
        self.slice.len()
    }

    // The word at a place; 0 behind the last.
    pub fn word(&self, i: usize) -> u32
        ensures value { result ≡ get_or self.now i 0 }
        ensures few { length self.now ≤ 65535 }
    {
        word(self.slice, i)
    }

    // The place behind the bracket that is open at a place, up to the end of the words.
    #[tactic(auto, using(crate::proofs::LinkLaws::places))]
    pub fn behind(&self, at: usize) -> usize
        ensures { result ≡ closing self.now at }
    {
        let Text { slice, ends } = self;
        if slice.len() < at {
            return at;
        }
        usize::from(ends[at])
    }
}
