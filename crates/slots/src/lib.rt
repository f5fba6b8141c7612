// Readers of a query's 24 bits: terms, slots, and patterns of three slots.
#![tactic(auto)]

ghost use Rattle.std.specs.Prelude.{◌≡◌, ◌+◌, ◌≤◌, ◌<◌, length};
ghost use Rattle.tsparql.specs.Reading.{bits24, term_sound, slot_sound, read_pattern};
ghost use Rattle.slots.specs.Answers.{slots_at, slots_sound, pattern_found};

use refusals::Fault;

// A slot below this number is a term, any other a variable.
pub const FIRST_VARIABLE: u32 = 1048576;
// The bytes of a pattern.
pub const PATTERN_BYTES: usize = 9;

// A pattern by its slots' 24 bits: below 1,048,576 a term, else 1,048,576 and a variable.
#[derive(Clone, Copy, Debug, PartialEq, Eq)]
pub struct Pattern {
    pub subject: u32,
    pub predicate: u32,
    pub object: u32,
}

// The 24 bits at a place.
pub fn bits_at(q: &[u8], at: usize) -> u32
    requires { at + 3 ≤ length q.now }
    ensures { result ≡ bits24 q.now at }
{
    (u32::from(q[at]) * 256 + u32::from(q[at + 1])) * 256 + u32::from(q[at + 2])
}

// The number is 4 zero bits and a term.
pub fn term_sound(x: u32) -> bool
    ensures { result ≡ term_sound x }
{
    0 < x && x < FIRST_VARIABLE
}

// The number is a slot's: a term, or a variable.
pub fn slot_sound(x: u32) -> bool
    ensures { result ≡ slot_sound x }
{
    term_sound(x) || (FIRST_VARIABLE <= x && x < 1048592)
}

// The pattern of a part's first 9 bytes, whatever they hold.
pub fn pattern_at(q: &[u8]) -> Pattern
    requires { 9 ≤ length q.now }
    ensures { result ≡ slots_at q.now }
{
    Pattern {
        subject: bits_at(q, 0),
        predicate: bits_at(q, 3),
        object: bits_at(q, 6),
    }
}

// Each slot is a term or a variable.
fn pattern_sound(p: Pattern) -> bool
    ensures { result ≡ slots_sound p }
{
    slot_sound(p.subject) && slot_sound(p.predicate) && slot_sound(p.object)
}

// The pattern that a part starts with, and the next place.
pub fn read_pattern(q: &[u8]) -> Result<(Pattern, usize), Fault>
    ensures { pattern_found result ≡ read_pattern q.now }
{
    if q.len() < PATTERN_BYTES {
        return Err(Fault(0));
    }
    let p = pattern_at(q);
    if pattern_sound(p) {
        Ok((p, PATTERN_BYTES))
    } else {
        Err(Fault(0))
    }
}
