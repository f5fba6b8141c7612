// Evaluates the query in `query.bin` over the facts in `facts.bin`, both in the current folder, and prints what `report` promises: the
// counts and the rows, or a refusal. An absent file is an empty one. Of a file that is too long one byte past its limit is read, which
// is enough (strikes-fronts of report's LongFiles).
#![tactic(auto)]

ghost use Rattle.std.specs.Prelude.{◌≡◌, ◌≤◌, length, take};

use report::write_strikes;
use std::fs::File;
use std::io;
use std::io::{Read, Write};

// Reads a file to the front of a buffer, as far as it fits. Answers how many bytes that are.
fn load(rt: &HostRuntime, path: &str, buffer: &mut [u8]) -> usize
    ensures { (result ≤ length buffer.new) × (result ≡ length (take result buffer.new)) }
{
    let Ok(mut file) = File::open(rt, path) else {
        return 0;
    };
    let mut n = 0;
    while n < buffer.len() {
        let Ok(more) = file.read(&mut buffer[n..]) else {
            return n;
        };
        if more == 0 {
            return n;
        }
        n += more;
    }
    n
}

fn main(rt: HostRuntime) -> io::Result<()> {
    let mut facts = [0u8; 65530];
    let mut query = [0u8; 5121];
    // The text is never longer (text-whole of report's WholeText).
    let mut text = [0u8; 200000];
    let f = load(&rt, "facts.bin", &mut facts);
    let q = load(&rt, "query.bin", &mut query);
    let n = write_strikes(&facts[..f], &query[..q], &mut text);
    rt.stdout().write_all(&text[..n])
}
