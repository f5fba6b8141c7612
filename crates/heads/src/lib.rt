// Readers of the head of a condition or a node: what it is without its operands, and how many those are. A reader is given the part
// of the query from there on, and answers the head with the place behind the head's own bytes, or where the fault is, both counted from
// the part's start.
#![tactic(auto)]

ghost use Rattle.std.specs.Prelude.{◌≡◌};
ghost use Rattle.refusals.specs.Reads.{found};
ghost use Rattle.heads.specs.Answers.{fault_in};
ghost use Rattle.heads.specs.Parts.{pair_head, term_head, connective, condition_head_read, condition_operands};
ghost use Rattle.heads.specs.Parts.{bounds_head, plain_head, node_head_read, node_operands};

use refusals::Fault;
use slots::{bits_at, term_sound};

// A condition without its operands.
#[derive(Clone, Copy)]
pub enum ConditionHead {
    Bound(u8),
    Same(u8, u8),
    IsTerm(u8, u32),
    Less(u8, u8),
    Not,
    And,
    Or,
    True,
}

// A node without its operands; the bounds of ensure trust stand plus 1000.
#[derive(Clone, Copy)]
pub enum Head {
    PatternSet(u8),
    Join,
    LeftJoin,
    Union,
    Filter,
    ProjectTrust(u8),
    EnsureTrust(u32, u32),
}

// ---- conditions

// Same (true) or less, with n for its first variable.
fn pair_head(q: &[u8], n: u8, same: bool) -> Result<(ConditionHead, usize), Fault>
    ensures { found result ≡ pair_head q.now n same }
{
    if q.len() < 2 || 16 <= q[1] {
        return Err(Fault(0));
    }
    let w = q[1];
    let head = if same {
        ConditionHead::Same(n, w)
    } else {
        ConditionHead::Less(n, w)
    };
    Ok((head, 2))
}

// Is-term, with n for its variable.
fn term_head(q: &[u8], n: u8) -> Result<(ConditionHead, usize), Fault>
    ensures { found result ≡ term_head q.now n }
{
    if q.len() < 4 || !term_sound(bits_at(q, 1)) {
        return Err(Fault(0));
    }
    Ok((ConditionHead::IsTerm(n, bits_at(q, 1)), 4))
}

// Not, and, or, true: n must be 0.
fn connective_head(kind: u8, n: u8) -> Result<(ConditionHead, usize), Fault>
    ensures { found result ≡ connective kind n }
{
    if n != 0 {
        return Err(Fault(0));
    }
    match kind {
        4 => Ok((ConditionHead::Not, 1)),
        5 => Ok((ConditionHead::And, 1)),
        6 => Ok((ConditionHead::Or, 1)),
        7 => Ok((ConditionHead::True, 1)),
        _ => Err(Fault(0)),
    }
}

// The head of the condition that a part starts with, and the place behind the head's own bytes. Each level of a condition reads one, for
// each row that it is tried on: inlined, since the call takes a quarter of the time.
#[inline(always)]
#[tactic(auto, unfolding(crate::specs::Parts::condition_head_read))]
pub fn read_condition_head(q: &[u8]) -> Result<(ConditionHead, usize), Fault>
    ensures { found result ≡ condition_head_read q.now }
{
    if q.is_empty() {
        return Err(Fault(0));
    }
    let n = q[0] % 16;
    let kind = q[0] / 16;
    match kind {
        0 => Ok((ConditionHead::Bound(n), 1)),
        1 => pair_head(q, n, true),
        2 => term_head(q, n),
        3 => pair_head(q, n, false),
        _ => connective_head(kind, n),
    }
}

// How many conditions are the operands of a condition.
pub fn condition_operands(h: ConditionHead) -> u8
    ensures { result ≡ condition_operands h }
{
    match h {
        ConditionHead::Not => 1,
        ConditionHead::And | ConditionHead::Or => 2,
        _ => 0,
    }
}

// The place of a fault, for a caller that asks for that alone; 0 where there is none.
pub fn condition_fault(r: Result<(ConditionHead, usize), Fault>) -> usize
    ensures { result ≡ fault_in (found r) }
{
    match r {
        Ok((_, _)) => 0,
        Err(f) => f.0,
    }
}

// ---- nodes

// Ensure trust: n must be 0, and two bounds follow.
fn bounds_head(q: &[u8], n: u8) -> Result<(Head, usize), Fault>
    ensures { found result ≡ bounds_head q.now n }
{
    if n != 0 || q.len() < 4 {
        return Err(Fault(0));
    }
    let bounds = bits_at(q, 1);
    let least = bounds / 4096;
    let most = bounds % 4096;
    if least <= 2000 && most <= 2000 {
        Ok((Head::EnsureTrust(least, most), 4))
    } else {
        Err(Fault(0))
    }
}

// Join, left join, union, filter: n must be 0.
fn plain_head(kind: u8, n: u8) -> Result<(Head, usize), Fault>
    ensures { found result ≡ plain_head kind n }
{
    if n != 0 {
        return Err(Fault(0));
    }
    match kind {
        1 => Ok((Head::Join, 1)),
        2 => Ok((Head::LeftJoin, 1)),
        3 => Ok((Head::Union, 1)),
        4 => Ok((Head::Filter, 1)),
        _ => Err(Fault(0)),
    }
}

// The head of the node that a part starts with, and the place behind the head's own bytes.
#[tactic(auto, unfolding(crate::specs::Parts::node_head_read))]
pub fn read_head(q: &[u8]) -> Result<(Head, usize), Fault>
    ensures { found result ≡ node_head_read q.now }
{
    if q.is_empty() {
        return Err(Fault(0));
    }
    let n = q[0] % 16;
    let kind = q[0] / 16;
    match kind {
        0 => Ok((Head::PatternSet(n), 1)),
        5 => Ok((Head::ProjectTrust(n), 1)),
        6 => bounds_head(q, n),
        _ => plain_head(kind, n),
    }
}

// How many nodes are the operands of a node.
pub fn node_operands(h: Head) -> u8
    ensures { result ≡ node_operands h }
{
    match h {
        Head::PatternSet(_) => 0,
        Head::Join | Head::LeftJoin | Head::Union => 2,
        Head::Filter | Head::ProjectTrust(_) | Head::EnsureTrust(_, _) => 1,
    }
}

// The same of a node.
pub fn node_fault(r: Result<(Head, usize), Fault>) -> usize
    ensures { result ≡ fault_in (found r) }
{
    match r {
        Ok(_) => 0,
        Err(fault) => fault.0,
    }
}
