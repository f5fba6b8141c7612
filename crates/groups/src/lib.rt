// The passes over a group's items: its projections, its bounds and its filters around what is joined in it.
#![tactic(auto)]

ghost use Rattle.std.specs.Prelude.{◌∷◌, ◌≡◌, ◌≤◌, ◌<◌, IfSome, length};
ghost use Rattle.tsparql.specs.Query.{Node};
ghost use Rattle.tsparql.specs.Writing.{node_bytes, three_bytes};
ghost use Rattle.grammar.specs.Meaning.{projected, bounded};
ghost use Rattle.blocks.specs.Buffers.{prepended};
ghost use Rattle.blocks.specs.Lent.{held, Kept};
ghost use Rattle.groups.specs.Items.{next_place, Seeks};
ghost use Rattle.groups.specs.Passes.{Makes, Conjoins, Unfilters, Filters, Splits, bound_in};

use blocks::Buffer;
use clauses::condition;
use words::{
    ENSURE, FILTER, FIRST_NEGATIVE, FIRST_VARIABLE, LBRACE, OPTIONAL, RBRACE, TRUST, Text, UNION,
};

// From one item of a group to the next.
#[tactic(auto, unfolding(crate::specs::Items::next_place))]
pub fn step(t: &Text, i: usize) -> usize
    requires { i < length t.now }
    ensures { result ≡ next_place t.now i }
{
    match t.word(i) {
        FIRST_VARIABLE.. | TRUST => i + 3,
        ENSURE => i + 7,
        LBRACE => t.behind(i + 1),
        FILTER | OPTIONAL | UNION => t.behind(i + 2),
        _ => i + 1,
    }
}

// The place of the next item of a group from a place on that begins with a word; none where the group ends.
fn find_item(t: &Text, at: usize, first: u32) -> Option<usize>
    requires { first < 256 }
    ensures seeks { Seeks first t.now at result }
    ensures within { IfSome result (λ i. i < 65535) }
{
    let mut i = at;
    while i < t.len() {
        let w = t.word(i);
        if w == RBRACE {
            return None;
        }
        if w == first {
            return Some(i);
        }
        i = step(t, i);
    }
    None
}

// The projections of the group at a place, around the block behind `from` bytes.
fn projections(t: &Text, at: usize, out: &mut Buffer<'_>, from: usize)
    ensures writes { Makes Node projected node_bytes t.now at from (held out.old) (held out.new) }
    ensures kept { Kept out.old out.new }
{
    let mut next = at;
    while let Some(i) = find_item(t, next, TRUST) {
        let v = t.word(i + 2);
        out.put(from, (80 + v % 16) as u8);
        next = step(t, i);
    }
}

// A bound from its word, plus 1000.
fn thousandths(w: u32) -> u32
    ensures { (result ≤ 2000) × (result ≡ bound_in w) }
{
    let value = w % 1048576 % 1001;
    if w < FIRST_NEGATIVE {
        1000 + value
    } else {
        1000 - value
    }
}

// The bytes of ensure trust in front of a block.
fn put4(out: &mut Buffer<'_>, at: usize, x: u32)
    requires { x < 16777216 }
    ensures writes { held out.new ≡ prepended (held out.old) at (96 ∷ three_bytes x) }
    ensures kept { Kept out.old out.new }
{
    let [_, high, middle, low] = x.to_be_bytes();
    out.put(at, low);
    out.put(at, middle);
    out.put(at, high);
    out.put(at, 96);
}

// The bounds of the group at a place, around the block behind `from` bytes.
fn bounds(t: &Text, at: usize, out: &mut Buffer<'_>, from: usize)
    ensures writes { Makes Node bounded node_bytes t.now at from (held out.old) (held out.new) }
    ensures kept { Kept out.old out.new }
{
    let mut next = at;
    while let Some(i) = find_item(t, next, ENSURE) {
        let l = thousandths(t.word(i + 3));
        let u = thousandths(t.word(i + 5));
        put4(out, from, 4096 * l + u);
        next = step(t, i);
    }
}

// The filters of the group at a place, joined by and, behind the end.
fn conjunction(t: &Text, at: usize, out: &mut Buffer<'_>)
    ensures writes { Conjoins t.now at (held out.old) (held out.new) }
    ensures kept { Kept out.old out.new }
{
    let from = out.len();
    let mut next = at;
    while let Some(i) = find_item(t, next, FILTER) {
        let n = out.len();
        next = condition(t.words(), i + 2, out);
        if from < n {
            out.put(from, 80);
        }
    }
}

// The group at a place without its filters, from what is joined in it.
fn unfiltered(t: &Text, at: usize, out: &mut Buffer<'_>, from: usize)
    ensures writes { Unfilters t.now at from (held out.old) (held out.new) }
    ensures kept { Kept out.old out.new }
{
    projections(t, at, out, from);
    bounds(t, at, out, from);
}

// The same with its filters.
pub fn filtered(t: &Text, at: usize, out: &mut Buffer<'_>, from: usize)
    ensures writes { Filters t.now at from (held out.old) (held out.new) }
    ensures kept { Kept out.old out.new }
{
    unfiltered(t, at, out, from);
    let mid = out.len();
    conjunction(t, at, out);
    if mid < out.len() {
        out.exchange(from, mid);
        out.put(from, 64);
    }
}

// The group of an OPTIONAL, and behind it the condition of its left join: where that begins.
pub fn split(t: &Text, at: usize, out: &mut Buffer<'_>, from: usize) -> usize
    ensures writes { Splits t.now at from (held out.old) (held out.new) result }
    ensures kept { Kept out.old out.new }
{
    unfiltered(t, at, out, from);
    let mid = out.len();
    conjunction(t, at, out);
    if mid < out.len() {
        return mid;
    }
    out.append(112);
    mid
}
