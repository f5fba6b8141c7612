// The tokens of a query text, or the place of its fault: the automaton's stack is an array of bytes, and each turn reads one token.
#![tactic(auto)]

ghost use Rattle.std.specs.Prelude.{◌≡◌, ◌+◌, ◌*◌, ◌≤◌, ◌<◌, length};
ghost use Rattle.std.specs.List.{find};
ghost use Rattle.lexer.specs.Symbols.{Gives};
ghost use Rattle.lexer.specs.Rules.{covering, follows};
ghost use Rattle.lexer.specs.Steps.{Pushes, Scans};
ghost use Rattle.lexer.specs.Starts.{Begins};
ghost use Rattle.lexer.specs.NextToken.{number_at, word_at, variable_at, negative_at, positive_at, fixed_at, token_at, next_token};

mod start;

use refusals::Fault;
use scanner::{Cursor, fixed_token};
use start::Start;
use words::{FIRST_NEGATIVE, FIRST_NUMBER, FIRST_VARIABLE};

// ---- what may come

// The symbols of the automaton, as bytes on its stack.
const BODY: u8 = 1;

const AFTER_TRIPLE: u8 = 2;

const AFTER_ELEMENT: u8 = 3;

const AFTER_GROUP: u8 = 4;

const SLOT: u8 = 5;

const VARIABLE: u8 = 6;

const BOUND: u8 = 7;

const PRIMARY: u8 = 8;

const NEGATABLE: u8 = 9;

const RELATION: u8 = 10;

const TAIL: u8 = 11;

const LBRACE: u8 = 12;

const LPAREN: u8 = 13;

const RPAREN: u8 = 14;

const COMMA: u8 = 15;

const AS: u8 = 16;

const TRUST: u8 = 17;

// A production is one number: its symbols as digits to the base 32, the last one the lowest.
macro_rules! production {
    (@ $number:expr;) => { $number };
    (@ $number:expr; $symbol:expr $(, $rest:expr)*) => { production!(@ $number * 32 + $symbol as u64; $($rest),*) };
    ($($symbol:expr),+) => { production!(@ 0; $($symbol),+) };
}

const START: u64 = production!(LBRACE, BODY);

const TRIPLE: u64 = production!(SLOT, SLOT, AFTER_TRIPLE);

const GROUP: u64 = production!(BODY, AFTER_GROUP);

const ALTERNATIVE: u64 = production!(LBRACE, BODY, AFTER_GROUP);

const OPTION: u64 = production!(LBRACE, BODY, AFTER_ELEMENT);

const FILTER: u64 = production!(LPAREN, PRIMARY, TAIL, AFTER_ELEMENT);

const PROJECTION: u64 = production!(AS, VARIABLE, AFTER_ELEMENT);

const BOUNDS: u64 = production!(TRUST, LPAREN, BOUND, COMMA, BOUND, RPAREN, AFTER_ELEMENT);

const IS_BOUND: u64 = production!(LPAREN, VARIABLE, RPAREN);

const CONDITION: u64 = production!(PRIMARY, TAIL);

// The symbols from the first to the second allow a token that begins with the byte, and the production is what then has to come.
#[derive(Clone, Copy)]
struct Rule(u8, u8, u8, u64);

// A term is listed under the digit 0.
const RULES: [Rule; 29] = [
    Rule(BODY, BODY, b'?', TRIPLE),
    Rule(AFTER_ELEMENT, AFTER_GROUP, b'?', TRIPLE),
    Rule(SLOT, VARIABLE, b'?', 0),
    Rule(PRIMARY, PRIMARY, b'?', RELATION as u64),
    Rule(BODY, BODY, b'0', TRIPLE),
    Rule(AFTER_ELEMENT, AFTER_GROUP, b'0', TRIPLE),
    Rule(SLOT, SLOT, b'0', 0),
    Rule(AFTER_GROUP, AFTER_GROUP, b'U', ALTERNATIVE),
    Rule(AFTER_TRIPLE, AFTER_GROUP, b'.', BODY as u64),
    Rule(BODY, AFTER_GROUP, b'}', 0),
    Rule(BODY, AFTER_GROUP, b'{', GROUP),
    Rule(BODY, AFTER_GROUP, b'O', OPTION),
    Rule(BODY, AFTER_GROUP, b'F', FILTER),
    Rule(BODY, AFTER_GROUP, b'T', PROJECTION),
    Rule(BODY, AFTER_GROUP, b'E', BOUNDS),
    Rule(PRIMARY, NEGATABLE, b'B', IS_BOUND),
    Rule(PRIMARY, NEGATABLE, b'!', NEGATABLE as u64),
    Rule(PRIMARY, NEGATABLE, b'(', CONDITION),
    Rule(RELATION, RELATION, b'=', SLOT as u64),
    Rule(RELATION, RELATION, b'<', VARIABLE as u64),
    Rule(TAIL, TAIL, b')', 0),
    Rule(TAIL, TAIL, b'&', CONDITION),
    Rule(TAIL, TAIL, b'|', CONDITION),
    Rule(LBRACE, LBRACE, b'{', 0),
    Rule(LPAREN, LPAREN, b'(', 0),
    Rule(RPAREN, RPAREN, b')', 0),
    Rule(COMMA, COMMA, b',', 0),
    Rule(AS, AS, b'A', 0),
    Rule(TRUST, TRUST, b'T', 0),
];

impl Rule {
    // Whether the rule is for the symbol and the first byte.
    fn covers(self, symbol: u8, first: u8) -> bool
        ensures { result ≡ covering self symbol first }
    {
        self.0 <= symbol && symbol <= self.1 && first == self.2
    }
}

// The first rule for a symbol and a first byte.
fn rule_for(rules: &[Rule], symbol: u8, first: u8) -> Option<Rule>
    ensures { result ≡ find (λ r. covering r symbol first) rules.now }
{
    rules
        .iter()
        .copied()
        .find(|rule| rule.covers(symbol, first))
}

// What the symbol allows with this first byte.
fn allowed(symbol: u8, first: u8) -> Option<u64>
    ensures { Gives symbol (λ X. follows X first) result }
{
    rule_for(&RULES, symbol, first).map(|rule| rule.3)
}

// ---- one token

// A token as a word, the place behind it, whether it ends a word, and what has to come after it.
#[derive(Clone, Copy)]
pub struct Lexeme {
    pub word: u32,
    pub next: usize,
    pub tight: bool,
    pub production: u64,
}

// A number from least to most as a token of the kind.
fn numeric(
    here: &Cursor,
    least: u32,
    most: u32,
    kind: u32,
    production: u64,
) -> Result<Lexeme, Fault>
    requires { (least ≤ 1) × (9 ≤ most) × (most < 2000000) × (kind ≤ 4194304) }
    ensures { result ≡ number_at least most kind production here.now.text.now here.now.at }
{
    let number = here.numeral(least, most).ok_or(Fault(here.at))?;
    Ok(Lexeme {
        word: kind + number.value,
        next: number.next,
        tight: true,
        production,
    })
}

// A fixed token, by its first byte.
#[tactic(auto, using(crate::proofs::FixedLaws::first_there))]
fn spelled(here: &Cursor, production: u64) -> Result<Lexeme, Fault>
    ensures { result ≡ word_at production here.now.text.now here.now.at }
{
    let first = here.byte();
    match fixed_token(here.rest()) {
        Ok(len) => Ok(Lexeme {
            word: u32::from(first),
            next: here.at + len,
            tight: first.is_ascii_uppercase(),
            production,
        }),
        Err(fault) => Err(fault.behind(here.at)),
    }
}

impl<'a> Start<'a> {
    // The place behind the first byte.
    fn behind(&self) -> Cursor<'a>
        ensures { (result.text.now ≡ self.now.here.text.now) × (result.at ≡ self.now.here.at + 1) }
    {
        let Cursor { text, at } = self.here;
        Cursor { text, at: at + 1 }
    }

    // A token that begins with a question mark.
    fn variable(&self) -> Result<Lexeme, Fault>
        ensures { Begins variable_at self.now result }
    {
        let production = allowed(self.symbol, b'?').ok_or(Fault(self.here.at))?;
        numeric(&self.behind(), 0, 15, FIRST_VARIABLE, production)
    }

    // A token that begins with a minus sign.
    fn negative(&self) -> Result<Lexeme, Fault>
        ensures { Begins negative_at self.now result }
    {
        if self.tight || self.symbol != BOUND {
            return Err(Fault(self.here.at));
        }
        numeric(&self.behind(), 1, 1000, FIRST_NEGATIVE, 0)
    }

    // A token that begins with a digit.
    fn positive(&self) -> Result<Lexeme, Fault>
        ensures { Begins positive_at self.now result }
    {
        if self.tight {
            return Err(Fault(self.here.at));
        }
        if self.symbol == BOUND {
            return numeric(&self.here, 0, 1000, FIRST_NUMBER, 0);
        }
        let production = allowed(self.symbol, b'0').ok_or(Fault(self.here.at))?;
        numeric(&self.here, 1, 1048575, FIRST_NUMBER, production)
    }

    // A token that begins with any other byte. A word may not follow a word, number or variable directly.
    fn fixed(&self) -> Result<Lexeme, Fault>
        ensures { Begins fixed_at self.now result }
    {
        let first = self.here.byte();
        let production = allowed(self.symbol, first).ok_or(Fault(self.here.at))?;
        if self.tight && first.is_ascii_uppercase() {
            return Err(Fault(self.here.at));
        }
        spelled(&self.here, production)
    }

    // The token, by its first byte.
    #[tactic(auto, unfolding(crate::specs::NextToken::token_at))]
    fn token(&self) -> Result<Lexeme, Fault>
        ensures { Begins token_at self.now result }
    {
        match self.here.byte() {
            b'?' => self.variable(),
            b'-' => self.negative(),
            b'0'..=b'9' => self.positive(),
            _ => self.fixed(),
        }
    }
}

// The next token, which the symbol on top allows.
#[tactic(auto, unfolding(crate::specs::NextToken::next_token))]
fn advance(here: &Cursor, tight: bool, symbol: u8) -> Result<Lexeme, Fault>
    ensures { Gives symbol (λ X. next_token X tight here.now.text.now here.now.at) result }
{
    let Cursor { text, at } = *here;
    let i = here.skip();
    if text.len() <= i {
        return Err(Fault(i));
    }
    let start = Start {
        here: Cursor { text, at: i },
        tight: tight && at == i,
        symbol,
    };
    start.token()
}

// ---- the text

// The symbols of a production on top of the stack.
fn push(stack: &mut [u8], depth: usize, production: u64) -> usize
    ensures { Pushes stack.old stack.new depth production result }
{
    let mut d = depth;
    let mut p = production;
    while 0 < p {
        if stack.len() <= d {
            return d;
        }
        stack[d] = (p % 32) as u8;
        d += 1;
        p /= 32;
    }
    d
}

// The tokens of a text as words, and how many they are.
pub fn scan(s: &[u8], words: &mut [u32], stack: &mut [u8]) -> Result<usize, Fault>
    requires { (length s.now ≤ length words.old) × (2 + 2 * length s.now ≤ length stack.old) }
    ensures { Scans s.now words.new result }
{
    let mut depth = push(stack, 0, START);
    let mut at = 0;
    let mut tight = false;
    let mut count = 0;
    while 0 < depth {
        let here = Cursor { text: s, at };
        let token = advance(&here, tight, stack[depth - 1])?;
        words[count] = token.word;
        count += 1;
        depth = push(stack, depth - 1, token.production);
        tight = token.tight;
        at = token.next;
    }
    let behind = Cursor { text: s, at };
    let end = behind.skip();
    if end < s.len() {
        return Err(Fault(end));
    }
    Ok(count)
}
