// Query bytes of a condition from the words of its tokens.
#![tactic(auto)]

ghost use Rattle.std.specs.Prelude.{◌≤◌, ◌<◌, length};
ghost use Rattle.blocks.specs.Lent.{held, Kept};
ghost use Rattle.clauses.specs.Clauses.{Operand, Conditions, Connects};

use blocks::Buffer;
use words::{AND, BOUND, FIRST_NUMBER, LESS, LPAREN, NOT, OR, RPAREN, word};

// A condition that is being read: its next word, and where its last conjunction begins.
#[derive(Clone, Copy)]
pub struct Clause {
    pub next: usize,
    pub and: usize,
}

// The place behind a primary that begins with neither '!' nor '(': BOUND, '=' or '<'.
fn operand(t: &[u32], i: usize, out: &mut Buffer<'_>) -> usize
    requires { i < length t.now }
    ensures writes { Operand t.now i (held out.old) (held out.new) result }
    ensures kept { Kept out.old out.new }
{
    let w = word(t, i);
    let op = word(t, i + 1);
    let x = word(t, i + 2);
    let left = (w % 16) as u8;
    let right = (x % 16) as u8;
    if w == BOUND {
        out.append(right);
        return i + 4;
    }
    if op == LESS {
        out.append(48 + left);
        out.append(right);
        return i + 3;
    }
    if x < FIRST_NUMBER {
        out.append(16 + left);
        out.append(right);
        return i + 3;
    }
    out.append(32 + left);
    out.append3(x);
    i + 3
}

// What follows a primary: '&&', '||', or the closing parenthesis, which is left there.
fn connect(t: &[u32], out: &mut Buffer<'_>, from: usize, and: usize, next: usize) -> Clause
    ensures writes { (next ≤ result.next) × Connects t.now from (held out.old) (held out.new) and next result }
    ensures kept { Kept out.old out.new }
{
    match word(t, next) {
        AND => {
            out.put(and, 80);
            Clause {
                next: next + 1,
                and,
            }
        }
        OR => {
            out.put(from, 96);
            Clause {
                next: next + 1,
                and: out.len(),
            }
        }
        _ => Clause { next, and },
    }
}

// The condition from behind its opening parenthesis, up to and over its closing one: the place behind it.
pub fn condition(t: &[u32], at: usize, out: &mut Buffer<'_>) -> usize
    ensures writes { (at ≤ result) × Conditions t.now at (held out.old) (held out.new) result }
    ensures kept { Kept out.old out.new }
{
    let from = out.len();
    let mut s = Clause {
        next: at,
        and: from,
    };
    while let Some(w) = t.get(s.next) {
        let i = s.next;
        match *w {
            RPAREN => return i + 1,
            NOT => {
                out.append(64);
                s.next = i + 1;
            }
            LPAREN => {
                let next = condition(t, i + 1, out);
                s = connect(t, out, from, s.and, next);
            }
            _ => {
                let next = operand(t, i, out);
                s = connect(t, out, from, s.and, next);
            }
        }
    }
    s.next
}
