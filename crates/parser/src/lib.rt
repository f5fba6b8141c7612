// What is joined in a group, from the words of its tokens: triples in sets of fifteen, groups and unions joined, OPTIONAL groups
// left-joined. A node is a block of a buffer: what is joined so far stands behind `from` bytes, and each operand is written behind it.
// Groups: nodes that stand last; triples; a group.
#![tactic(auto)]

ghost use Rattle.std.specs.Prelude.{◌≡◌, ◌||◌, ◌≤◌, ◌<◌, eqb, leb, length, get_or};
ghost use Rattle.blocks.specs.Buffers.{appended};
ghost use Rattle.blocks.specs.Lent.{held, Kept};
ghost use Rattle.parser.specs.Sets.{Unites, Joins, Begins, slot_bytes, Adds};
ghost use Rattle.parser.specs.Stages.{body_place, Triples, Passes, Closes, Gathers};

use blocks::Buffer;
use groups::{filtered, split, step};
use words::{FIRST_NUMBER, FIRST_VARIABLE, LBRACE, OPTIONAL, RBRACE, Text, UNION, word};

// ---- nodes that stand last in a buffer

// The node behind `mid`, united with the one from `mid` to `end` where there is one.
fn unite(out: &mut Buffer<'_>, mid: usize, end: usize)
    ensures writes { Unites (held out.old) (held out.new) mid end }
    ensures kept { Kept out.old out.new }
{
    if mid < end {
        out.put(mid, 48);
    }
}

// The nodes from `from` to `mid` and to the end, joined; the empty set, which has one byte, is dropped.
fn join(out: &mut Buffer<'_>, from: usize, mid: usize)
    ensures writes { Joins (held out.old) (held out.new) from mid }
    ensures kept { Kept out.old out.new }
{
    let n = out.len();
    if n <= mid || mid <= from {
        return;
    }
    if n - mid == 1 {
        out.truncate(mid);
        return;
    }
    if mid - from == 1 {
        out.exchange(from, mid);
        out.truncate(n - 1);
        return;
    }
    out.put(from, 16);
}

// An empty set, joined to the node behind `from` bytes.
fn begin(out: &mut Buffer<'_>, from: usize)
    ensures writes { Begins (held out.old) (held out.new) from }
    ensures kept { Kept out.old out.new }
{
    let n = out.len();
    if n <= from || n - from == 1 {
        return;
    }
    out.append(0);
    out.put(from, 16);
}

// ---- triples

// The kind of a variable, in a slot's 24 bits.
const VARIABLE_SLOT: u32 = 1048576;

// A slot behind the end.
fn slot(t: &[u32], i: usize, out: &mut Buffer<'_>)
    ensures writes { held out.new ≡ appended (held out.old) (slot_bytes (get_or t.now i 0)) }
    ensures kept { Kept out.old out.new }
{
    let x = word(t, i);
    let bits = if x < FIRST_NUMBER {
        VARIABLE_SLOT + x % 256
    } else {
        x
    };
    out.append3(bits);
}

// A triple into the set of `run` triples that stands last.
fn add(t: &[u32], i: usize, out: &mut Buffer<'_>, run: usize)
    requires { i < length t.now }
    ensures writes { Adds t.now i (held out.old) (held out.new) run }
    ensures kept { Kept out.old out.new }
{
    let n = out.len();
    if 14 < run || n <= 9 * run {
        return;
    }
    out.set(n - 1 - 9 * run, (run + 1) as u8);
    slot(t, i, out);
    slot(t, i + 1, out);
    slot(t, i + 2, out);
}

// ---- a group

// Where the gathering of a group stands: before the word `next`; what is joined ends at `mid`, an operand whose union goes on stands from
// there to the end; `run` triples are in the last set.
#[derive(Clone, Copy)]
pub struct Stage {
    pub next: usize,
    pub mid: usize,
    pub run: usize,
}

// Whether the next triple begins a set.
fn begins_set(run: usize) -> bool
    ensures { result ≡ (eqb run 0 || leb 15 run) }
{
    run == 0 || 15 <= run
}

// The stage behind the triple at `next`, which is added to the last set of fewer than fifteen, or begins one.
fn triple(t: &[u32], out: &mut Buffer<'_>, from: usize, g: Stage) -> Stage
    requires { g.next < length t.now }
    ensures writes { (g.next < result.next) × Triples t.now from (held out.old) (held out.new) g result }
    ensures kept { Kept out.old out.new }
{
    let i = g.next;
    if begins_set(g.run) {
        begin(out, from);
        add(t, i, out, 0);
        return Stage {
            next: i + 3,
            mid: out.len(),
            run: 1,
        };
    }
    add(t, i, out, g.run);
    Stage {
        next: i + 3,
        mid: out.len(),
        run: g.run + 1,
    }
}

// The stage behind an item without braces, or a dot.
fn pass(t: &Text, out: &mut Buffer<'_>, from: usize, g: Stage) -> Stage
    requires { g.next < length t.now }
    ensures writes { (g.next < result.next) × Passes t.now from (held out.old) (held out.new) g result }
    ensures kept { Kept out.old out.new }
{
    if FIRST_VARIABLE <= t.word(g.next) {
        return triple(t.words(), out, from, g);
    }
    Stage {
        next: step(t, g.next),
        ..g
    }
}

// The stage behind a group whose body, from the word `a` to `next`, was written from `end` on: left-joined, or united and joined.
fn close(
    t: &Text,
    a: usize,
    out: &mut Buffer<'_>,
    from: usize,
    g: Stage,
    end: usize,
    next: usize,
) -> Stage
    ensures writes { (next ≤ result.next) × Closes t.now a from (held out.old) (held out.new) g end next result }
    ensures kept { Kept out.old out.new }
{
    if t.word(g.next) == OPTIONAL {
        let condition = split(t, a, out, end);
        out.exchange(from, condition);
        out.put(from, 32);
        return Stage {
            next,
            mid: out.len(),
            run: 0,
        };
    }
    filtered(t, a, out, end);
    unite(out, g.mid, end);
    if t.word(next) == UNION {
        return Stage {
            next,
            mid: g.mid,
            run: 0,
        };
    }
    join(out, from, g.mid);
    Stage {
        next,
        mid: out.len(),
        run: 0,
    }
}

// Where the body begins of the group that begins at a place, if one does.
fn body_place(t: &Text, i: usize) -> Option<usize>
    requires { i < length t.now }
    ensures { result ≡ body_place (get_or t.now i 0) i }
{
    match t.word(i) {
        LBRACE => Some(i + 1),
        OPTIONAL | UNION => Some(i + 2),
        _ => None,
    }
}

// What is joined in the group whose body begins at a place, behind the end: the place behind the closing brace.
pub fn gather(t: &Text, at: usize, out: &mut Buffer<'_>) -> usize
    ensures writes { (at ≤ result) × Gathers t.now at (held out.old) (held out.new) result }
    ensures kept { Kept out.old out.new }
{
    let from = out.len();
    out.append(0);
    let mut g = Stage {
        next: at,
        mid: out.len(),
        run: 0,
    };
    while g.next < t.len() {
        if t.word(g.next) == RBRACE {
            return g.next + 1;
        }
        match body_place(t, g.next) {
            Some(a) => {
                let end = out.len();
                let next = gather(t, a, out);
                g = close(t, a, out, from, g, end, next);
            }
            None => g = pass(t, out, from, g),
        }
    }
    g.next
}
