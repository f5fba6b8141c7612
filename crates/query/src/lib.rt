// Readers of a query: conditions and nodes with their operands. A reader is given the part of the query from there on, and
// answers what it read with the next place, or where the fault is, both counted from the part's start.
#![tactic(auto)]

ghost use Rattle.std.specs.Prelude.{◌≡◌, ◌≤◌, length};
ghost use Rattle.tsparql.specs.Reading.{read_condition, read_node};
ghost use Rattle.refusals.specs.Reads.{found, place_found};
ghost use Rattle.heads.specs.Answers.{pattern_count};
ghost use Rattle.query.specs.Answers.{condition_head, node_head};
ghost use Rattle.query.specs.Parts.{map_read, conditions_from, patterns_from, before_operands, own_read, nodes_from};
ghost use Rattle.query.specs.Found.{next_node};

use heads::{
    ConditionHead, Head, condition_operands, node_operands, read_condition_head, read_head,
};
use refusals::Fault;
use slots::read_pattern;

// ---- conditions

// The condition that a part starts with, and the place behind its last operand. Inlined, as is `read_node`, so that what calls itself
// answers a place alone, in registers.
#[inline(always)]
#[cycle(read_condition_read_conditions)]
pub fn read_condition(q: &[u8]) -> Result<(ConditionHead, usize), Fault>
    ensures { found result ≡ map_read condition_head (read_condition q.now) }
{
    let (head, own) = read_condition_head(q)?;
    let n = condition_operands(head);
    let next = read_conditions(q, own, n)?;
    Ok((head, next))
}

// The place behind n conditions, one behind the other, from a place on.
#[cycle(read_condition_read_conditions)]
fn read_conditions(q: &[u8], at: usize, n: u8) -> Result<usize, Fault>
    requires { (1 ≤ at) × (at ≤ length q.now) }
    ensures { place_found result ≡ conditions_from n at q.now }
{
    let mut place = at;
    for _ in 0..n {
        match read_condition(&q[place..]) {
            Ok((_, k)) => place += k,
            Err(f) => return Err(f.behind(place)),
        }
    }
    Ok(place)
}

// ---- nodes

// How many patterns a pattern set has; other heads have none.
pub fn pattern_count(h: Head) -> u8
    ensures { result ≡ pattern_count h }
{
    match h {
        Head::PatternSet(n) => n,
        _ => 0,
    }
}

// The place behind n patterns from a place on.
fn read_patterns(q: &[u8], at: usize, n: u8) -> Result<usize, Fault>
    requires { at ≤ length q.now }
    ensures { place_found result ≡ patterns_from n at q.now }
{
    let mut next = at;
    for _ in 0..n {
        let Ok((_, k)) = read_pattern(&q[next..]) else {
            return Err(Fault(next));
        };
        next += k;
    }
    Ok(next)
}

// The place of a node's operands: behind its head's own bytes and its patterns or condition.
fn before_operands(q: &[u8], h: Head, own: usize) -> Result<usize, Fault>
    requires { (1 ≤ own) × (own ≤ length q.now) }
    ensures { place_found result ≡ before_operands q.now h own }
{
    match h {
        Head::PatternSet(n) => read_patterns(q, own, n),
        Head::LeftJoin | Head::Filter => read_conditions(q, own, 1),
        _ => Ok(own),
    }
}

// The head of the node that a part starts with, and the place of its operands.
pub fn read_own(q: &[u8]) -> Result<(Head, usize), Fault>
    ensures { found result ≡ own_read q.now }
{
    let (head, own) = read_head(q)?;
    let at = before_operands(q, head, own)?;
    Ok((head, at))
}

// The node that a part starts with, and the place behind its last operand.
#[inline(always)]
#[cycle(read_node_read_nodes)]
pub fn read_node(q: &[u8]) -> Result<(Head, usize), Fault>
    ensures { found result ≡ map_read node_head (read_node q.now) }
{
    let (head, at) = read_own(q)?;
    let n = node_operands(head);
    let behind = read_nodes(q, at, n)?;
    Ok((head, behind))
}

// The place behind n nodes, one behind the other, from a place on.
#[cycle(read_node_read_nodes)]
fn read_nodes(q: &[u8], at: usize, n: u8) -> Result<usize, Fault>
    requires { (1 ≤ at) × (at ≤ length q.now) }
    ensures { place_found result ≡ nodes_from n at q.now }
{
    let mut place = at;
    for _ in 0..n {
        match read_node(&q[place..]) {
            Ok((_, own)) => place += own,
            Err(fault) => return Err(fault.behind(place)),
        }
    }
    Ok(place)
}

// The place of the next node in prefix order, or that of a fault before it.
pub fn next_node(q: &[u8]) -> Result<usize, Fault>
    ensures { place_found result ≡ next_node q.now }
{
    let (_, behind) = read_own(q)?;
    Ok(behind)
}
