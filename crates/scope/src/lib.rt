// The variables of a query, for refusal 7, and the check of a query: refusals 5 to 7.
#![tactic(auto)]

ghost use Rattle.std.specs.Prelude.{◌≡◌, ◌≤◌, length};
ghost use Rattle.tsparql.specs.Reading.{slot_of, query_node};
ghost use Rattle.tsparql.specs.Check.{slot_variables, variables_of, variables_refusal};
ghost use Rattle.slots.specs.Answers.{pattern_in};
ghost use Rattle.query.specs.Found.{PatternsSound, NodeSound, node_of, QuerySound};
ghost use Rattle.scope.specs.Variables.{has, patterns_of, own_uses, projected_in, clashes_with, clash_at, clash_in, Checked};

use heads::{Head, read_head};
use query::{next_node, read_node};
use refusals::Refused;
use slots::{FIRST_VARIABLE, PATTERN_BYTES, Pattern, pattern_at};

// The variable stands at the slot.
fn slot_has(x: u32, v: u8) -> bool
    ensures { result ≡ has v (slot_variables (slot_of x)) }
{
    x == FIRST_VARIABLE + u32::from(v)
}

// The variable stands in the pattern.
fn pattern_has(p: Pattern, v: u8) -> bool
    ensures { result ≡ has v (variables_of (pattern_in p)) }
{
    slot_has(p.subject, v) || slot_has(p.predicate, v) || slot_has(p.object, v)
}

// The variable stands in one of n patterns from a place on.
fn patterns_have(q: &[u8], at: usize, n: u8, v: u8) -> bool
    requires { (at ≤ length q.now) × PatternsSound n at q.now }
    ensures { result ≡ has v (patterns_of n at q.now) }
{
    let mut next = at;
    for _ in 0..n {
        if pattern_has(pattern_at(&q[next..]), v) {
            return true;
        }
        next += PATTERN_BYTES;
    }
    false
}

// How a node itself uses a variable: 2 in a pattern, 1 to project its trust, else 0.
fn own_uses(q: &[u8], v: u8) -> u32
    requires { NodeSound q.now }
    ensures { result ≡ own_uses v (node_of q.now) }
{
    let Ok((head, own)) = read_head(q) else {
        return 0;
    };
    match head {
        Head::PatternSet(n) => if patterns_have(q, own, n, v) { 2 } else { 0 },
        Head::ProjectTrust(w) => u32::from(w == v),
        _ => 0,
    }
}

// The variable that a node projects its trust to, if it is a project trust node.
fn projected(q: &[u8]) -> Option<u8>
    ensures { result ≡ projected_in q.now }
{
    match read_head(q) {
        Ok((Head::ProjectTrust(w), _)) => Some(w),
        _ => None,
    }
}

// The variable stands in a pattern of the query, or in two of its project trust nodes.
fn clashes(q: &[u8], v: u8) -> bool
    requires { QuerySound q.now }
    ensures { result ≡ clashes_with q.now v }
{
    let mut at = 0;
    let mut seen = 0;
    while at < q.len() {
        seen += own_uses(&q[at..], v);
        if 2 <= seen {
            return true;
        }
        let Ok(k) = next_node(&q[at..]) else {
            return false;
        };
        at += k;
    }
    false
}

// The node at a place projects its trust to a variable that clashes.
fn clash_at(q: &[u8], at: usize) -> bool
    requires { QuerySound q.now × (at ≤ length q.now) }
    ensures { result ≡ clash_at q.now at }
{
    projected(&q[at..]).is_some_and(|v| clashes(q, v))
}

// The first project trust node whose variable clashes.
fn first_clash(q: &[u8]) -> Option<usize>
    requires { QuerySound q.now }
    ensures { clash_in result ≡ variables_refusal (query_node q.now) }
{
    let mut at = 0;
    while at < q.len() {
        if clash_at(q, at) {
            return Some(at);
        }
        let Ok(k) = next_node(&q[at..]) else {
            return None;
        };
        at += k;
    }
    None
}

// The check of a query under a limit: refusals 5 to 7.
pub fn check_query(q: &[u8], limit: usize) -> Result<(), Refused>
    ensures { Checked limit q.now result }
{
    if limit < q.len() {
        return Err(Refused::QueryTooLong);
    }
    let read = read_node(q);
    let Ok((_, next)) = read else {
        return Err(Refused::from(read.unwrap_err()));
    };
    if next != q.len() {
        return Err(Refused::QueryFault(next));
    }
    match first_clash(q) {
        None => Ok(()),
        Some(p) => Err(Refused::VariableClash(p)),
    }
}
