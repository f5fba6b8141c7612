// Rewriting: the push of a query, on bytes. What stands before a node's operands, its head with its patterns or its condition, is copied
// from the query; ensure trust goes, and comes back where a bound wraps a node.
#![tactic(auto)]

ghost use Rattle.std.specs.Prelude.{◌≡◌, ◌≤◌, length, take};
ghost use Rattle.tsparql.specs.Push.{BoundFormed};
ghost use Rattle.tsparql.specs.Rewrite as Rewrite;
ghost use Rattle.query.specs.Found.{NodeSound};
ghost use Rattle.refusals.specs.Reads.{found};
ghost use Rattle.encoding.specs.Writers.{Wrote};
ghost use Rattle.bounds.specs.Bounds.{bound_in, wrap_bytes, own_push, own_size};
ghost use Rattle.rewriting.specs.Answers.{pushed, Pushable, Pushes, rewritten_in};

use bounds::{Bounds, first_bound, own_size, second_bound, stays_put, wraps};
use encoding::write_head;
use heads::{Head, node_operands};
use query::read_own;
use refusals::{Fault, Refused};
use scope::check_query;

// The most bytes of a query that is rewritten.
const REWRITE_LIMIT: usize = 1024;

// The size of the push of the node that a part starts with, and the place behind the node. A part that reads has no fault.
fn push_size(q: &[u8], b: Option<Bounds>) -> Result<(usize, usize), Fault>
    requires { NodeSound q.now × (length q.now ≤ 1024) }
    ensures { found result ≡ pushed q.now (bound_in b) }
{
    let read = read_own(q);
    let Ok((head, k)) = read else {
        return Err(read.unwrap_err());
    };
    let own = own_size(head, b, k);
    let n = node_operands(head);
    if n == 0 {
        return Ok((own, k));
    }
    let (left, next) = push_size(&q[k..], first_bound(head, b))?;
    let at = k + next;
    let to = own + left;
    if n == 1 {
        return Ok((to, at));
    }
    let (right, last) = push_size(&q[at..], second_bound(head, b))?;
    Ok((to + right, at + last))
}

// Ensure trust with the bound at the front of the output, and how many bytes that is.
fn write_wrap(b: Option<Bounds>, out: &mut [u8]) -> usize
    requires { BoundFormed (bound_in b) × (length (wrap_bytes (bound_in b)) ≤ length out.old) }
    ensures { Wrote (wrap_bytes (bound_in b)) out.old out.new result }
{
    match b {
        None => 0,
        Some(b) => write_head(Head::EnsureTrust(b.least, b.most), out),
    }
}

// The bytes at the front of the output, and how many they are. By `copy_from_slice` the archive would need memmove.
fn copy(src: &[u8], out: &mut [u8]) -> usize
    requires { length src.now ≤ length out.old }
    ensures { Wrote src.now out.old out.new result }
{
    for i in 0..src.len() {
        out[i] = src[i];
    }
    src.len()
}

// What stands before a node's operands after the push, at the front of the output, and how many bytes that is.
fn write_own(q: &[u8], h: Head, b: Option<Bounds>, k: usize, out: &mut [u8]) -> usize
    requires { BoundFormed (bound_in b) × (k ≤ 1024) × (k ≤ length q.now) × (own_size h (bound_in b) k ≤ length out.old) }
    ensures { Wrote (own_push h (bound_in b) (take k q.now)) out.old out.new result }
{
    if !stays_put(h) {
        return 0;
    }
    let at = if wraps(h, b) { write_wrap(b, out) } else { 0 };
    at + copy(&q[..k], &mut out[at..])
}

// The push of the node that a part starts with, at the front of the output: its size, and the place behind the node. A part that reads
// has no fault.
fn push_node(q: &[u8], b: Option<Bounds>, out: &mut [u8]) -> Result<(usize, usize), Fault>
    requires { Pushable q.now (bound_in b) (length out.old) }
    ensures { Pushes q.now (bound_in b) out.old out.new result }
{
    let read = read_own(q);
    let Ok((head, k)) = read else {
        return Err(read.unwrap_err());
    };
    let own = write_own(q, head, b, k, out);
    let n = node_operands(head);
    if n == 0 {
        return Ok((own, k));
    }
    let (left, next) = push_node(&q[k..], first_bound(head, b), &mut out[own..])?;
    let at = k + next;
    let to = own + left;
    if n == 1 {
        return Ok((to, at));
    }
    let (right, last) = push_node(&q[at..], second_bound(head, b), &mut out[to..])?;
    Ok((to + right, at + last))
}

// The rewriting of a query: refusals 5 to 7, then 9 where the output is too short; else the push at the front of the output, and its
// length.
pub fn rewrite(q: &[u8], out: &mut [u8]) -> Result<usize, Refused>
    ensures { rewritten_in result out.new ≡ Rewrite.rewrite q.now out.old }
{
    check_query(q, REWRITE_LIMIT)?;
    let (size, _) = push_size(q, None)?;
    if out.len() < size {
        return Err(Refused::RewritingTooLong(size));
    }
    let (written, _) = push_node(q, None, out)?;
    Ok(written)
}
