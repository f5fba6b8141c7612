// Bounds on trust as a push carries them down: those of a node's operands, and what becomes of what stands before its operands.
#![tactic(auto)]

ghost use Rattle.std.specs.Prelude.{◌≡◌, ◌≤◌};
ghost use Rattle.tsparql.specs.Push as Push;
ghost use Rattle.bounds.specs.Bounds.{bound_in, first_bound, second_bound, wrapped, stays, own_size};

use heads::Head;

// The most that trust can be, plus 1000.
const TOP: u32 = 2000;

// Bounds on trust, plus 1000. A push carries one pair of them down from the root, or none.
#[derive(Clone, Copy, Debug, PartialEq, Eq)]
pub struct Bounds {
    pub least: u32,
    pub most: u32,
}

// The bound of the operand of ensure trust from m to w.
fn meet(b: Option<Bounds>, m: u32, w: u32) -> Option<Bounds>
    ensures { bound_in result ≡ Push.meet (bound_in b) m w }
{
    match b {
        None => Some(Bounds { least: m, most: w }),
        Some(b) => Some(Bounds {
            least: b.least.max(m),
            most: b.most.min(w),
        }),
    }
}

// The bound of the operands of a join: as low, and up to 1000.
fn floor_of(b: Option<Bounds>) -> Option<Bounds>
    ensures { bound_in result ≡ Push.trust_floor (bound_in b) }
{
    b.map(|b| Bounds {
        least: b.least,
        most: TOP,
    })
}

// The node is wrapped in ensure trust.
pub fn wraps(h: Head, b: Option<Bounds>) -> bool
    ensures { result ≡ wrapped h (bound_in b) }
{
    match h {
        Head::PatternSet(_) | Head::LeftJoin => b.is_some(),
        Head::Join => b.is_some_and(|b| b.most < TOP),
        _ => false,
    }
}

// The bound of a node's first operand, where it has one.
pub fn first_bound(h: Head, b: Option<Bounds>) -> Option<Bounds>
    ensures { bound_in result ≡ first_bound h (bound_in b) }
{
    match h {
        Head::Join | Head::LeftJoin => floor_of(b),
        Head::EnsureTrust(l, u) => meet(b, l, u),
        _ => b,
    }
}

// The bound of its second, where it has one.
pub fn second_bound(h: Head, b: Option<Bounds>) -> Option<Bounds>
    ensures { bound_in result ≡ second_bound h (bound_in b) }
{
    match h {
        Head::Join => floor_of(b),
        Head::LeftJoin => None,
        _ => b,
    }
}

// Ensure trust goes; every other node stays.
pub fn stays_put(h: Head) -> bool
    ensures { result ≡ stays h }
{
    !matches!(h, Head::EnsureTrust(_, _))
}

// How many bytes stand before a node's operands after the push, where k stood there.
pub fn own_size(h: Head, b: Option<Bounds>, k: usize) -> usize
    requires { k ≤ 1024 }
    ensures { result ≡ own_size h (bound_in b) k }
{
    if !stays_put(h) {
        0
    } else if wraps(h, b) {
        4 + k
    } else {
        k
    }
}
