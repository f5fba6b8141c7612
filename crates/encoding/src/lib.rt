// The writer of a node's head, at the front of a lent output. It answers how many bytes it wrote: none of a value out of range, nor where
// they do not fit. What stands behind them is unchanged.
#![tactic(auto)]

ghost use Rattle.std.specs.Prelude.{◌≤◌};
ghost use Rattle.encoding.specs.Writers.{first_bytes, bounds_bytes, head_bytes, WroteIfFits};

use heads::Head;

// The bytes at the front of the output, where they fit.
fn write<const N: usize>(bytes: [u8; N], out: &mut [u8]) -> usize
    ensures { WroteIfFits bytes.entry out.old out.new result }
{
    let Some(front) = out.first_chunk_mut::<N>() else {
        return 0;
    };
    *front = bytes;
    N
}

// A first byte.
fn write_first(kind: u8, n: u8, out: &mut [u8]) -> usize
    requires { kind ≤ 7 }
    ensures { WroteIfFits (first_bytes kind n) out.old out.new result }
{
    if n < 16 {
        write([16 * kind + n], out)
    } else {
        0
    }
}

// Ensure trust with its bounds, plus 1000.
fn write_bounds(l: u32, u: u32, out: &mut [u8]) -> usize
    ensures { WroteIfFits (bounds_bytes l u) out.old out.new result }
{
    if l <= 2000 && u <= 2000 {
        let [_, a, b, c] = (4096 * l + u).to_be_bytes();
        write([96, a, b, c], out)
    } else {
        0
    }
}

// A node's head at the front of the output, and how many bytes that is.
pub fn write_head(h: Head, out: &mut [u8]) -> usize
    ensures { WroteIfFits (head_bytes h) out.old out.new result }
{
    match h {
        Head::PatternSet(n) => write_first(0, n, out),
        Head::Join => write_first(1, 0, out),
        Head::LeftJoin => write_first(2, 0, out),
        Head::Union => write_first(3, 0, out),
        Head::Filter => write_first(4, 0, out),
        Head::ProjectTrust(v) => write_first(5, v, out),
        Head::EnsureTrust(l, u) => write_bounds(l, u, out),
    }
}
