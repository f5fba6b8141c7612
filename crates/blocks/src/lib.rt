// Blocks of bytes, one behind the other from the front of a lent buffer up to its end: a byte comes in front of a block or behind the last
// one, and two neighbours change places. Where there is no room nothing changes.
#![tactic(auto)]

ghost use Rattle.std.specs.Prelude.{[], ◌∷◌, ◌≡◌, ◌≤◌, ◌<◌, ◌%◌, length, take, set};
ghost use Rattle.tsparql.specs.Writing.{three_bytes};
ghost use Rattle.blocks.specs.Buffers.{buffer, shifted, inserted, appended, cut, reversed, exchanged};
ghost use Rattle.blocks.specs.Lent.{held, Kept};

use std::mem::replace;

// Lent bytes, of which the first `len` are in use; past the bytes' end nothing is written. Each method keeps the bytes that were lent
// (`Kept`), so that behind the last one the caller's own array holds what the buffer held.
#[derive(Drop)]
pub struct Buffer<'a> {
    pub bytes: &'a mut [u8],
    pub len: usize,
}

// The byte v at `at`, and those from there to `end` one place on.
// Each is carried on by itself, so that the archive needs no memmove.
#[tactic(auto, using(crate::proofs::Moving::carrying))]
fn shift(out: &mut [u8], at: usize, end: usize, v: u8)
    requires { (at ≤ end) × (end < length out.old) }
    ensures { out.new ≡ shifted out.old at end v }
{
    let mut moved = v;
    for b in out[at..=end].iter_mut() {
        moved = replace(b, moved);
    }
}

// The bytes from one place up to another, the last one first.
#[tactic(auto, using(crate::proofs::Holding::reversing))]
fn reverse(out: &mut [u8], from: usize, to: usize)
    requires { (from ≤ to) × (to ≤ length out.old) }
    ensures { out.new ≡ reversed out.old from to }
{
    out[from..to].reverse();
}

impl<'a> Buffer<'a> {
    // The first `len` of the bytes in use.
    pub fn new(bytes: &'a mut [u8], len: usize) -> Buffer<'a>
        ensures holds { held result ≡ buffer bytes.old len }
        ensures same { result.bytes.ghost_name ≡ bytes.entry.ghost_name }
    {
        Buffer { bytes, len }
    }

    // How many are in use.
    pub fn len(&self) -> usize
        ensures { result ≡ self.now.len }
    {
        self.len
    }

    // Those in use.
    pub fn bytes(&self) -> &[u8]
        ensures { result.now ≡ take self.now.len self.now.bytes.now }
    {
        &self.bytes[..self.len.min(self.bytes.len())]
    }

    // Only the first n in use.
    pub fn truncate(&mut self, n: usize)
        ensures holds { held self.new ≡ cut (held self.old) n }
        ensures kept { Kept self.old self.new }
    {
        self.len = self.len.min(n);
    }

    // The byte v at a place.
    pub fn set(&mut self, at: usize, v: u8)
        ensures holds { held self.new ≡ buffer (set self.old.bytes.now at v) self.old.len }
        ensures kept { Kept self.old self.new }
    {
        if at < self.bytes.len() {
            self.bytes[at] = v;
        }
    }

    // The byte v in front of the last block, which stands from a place to the end and moves on by one.
    #[tactic(auto, using(crate::proofs::Moving::inserting))]
    pub fn put(&mut self, at: usize, v: u8)
        ensures holds { held self.new ≡ inserted (held self.old) at v }
        ensures kept { Kept self.old self.new }
    {
        let end = self.len;
        if at <= end && end < self.bytes.len() {
            shift(self.bytes, at, end, v);
            self.len = end + 1;
        }
    }

    // A byte behind the last block.
    #[tactic(auto, unfolding(crate::specs::Buffers::appended))]
    pub fn append(&mut self, v: u8)
        ensures holds { held self.new ≡ appended (held self.old) (v ∷ []) }
        ensures kept { Kept self.old self.new }
    {
        self.put(self.len, v);
    }

    // Three bytes behind it, which hold the low 21 bits of a number.
    pub fn append3(&mut self, x: u32)
        ensures holds { held self.new ≡ appended (held self.old) (three_bytes (x % 2097152)) }
        ensures kept { Kept self.old self.new }
    {
        let [_, high, middle, low] = x.to_be_bytes();
        self.append(high % 32);
        self.append(middle);
        self.append(low);
    }

    // The last two blocks, from `at` to `mid` and on to the end, change places: each is reversed, and then the whole.
    #[tactic(auto, using(crate::proofs::Holding::exchanging))]
    pub fn exchange(&mut self, at: usize, mid: usize)
        ensures holds { held self.new ≡ buffer (exchanged self.old.bytes.now at mid self.old.len) self.old.len }
        ensures kept { Kept self.old self.new }
    {
        let end = self.len;
        if at <= mid && mid <= end && end <= self.bytes.len() {
            reverse(self.bytes, at, mid);
            reverse(self.bytes, mid, end);
            reverse(self.bytes, at, end);
        }
    }
}
