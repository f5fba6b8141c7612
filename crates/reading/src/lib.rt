// A typed query: the text into words, and the query's bytes from a buffer into the output.
#![tactic(auto)]

ghost use Rattle.std.specs.Prelude.{◌≡◌, ◌≤◌, length};
ghost use Rattle.blocks.specs.Lent.{held, Kept};
ghost use Rattle.grammar.specs.ReadText.{read_text};
ghost use Rattle.refusals.specs.Refusals.{written_in};
ghost use Rattle.reading.specs.Answers.{delivered, Renders, Writes};

use blocks::Buffer;
use groups::filtered;
use lexer::scan;
use parser::gather;
use refusals::Refused;
use words::Text;

// The most bytes of a text.
const TEXT_LIMIT: usize = 4096;

// The query's bytes, at the front of an empty buffer.
fn render(t: &Text, out: &mut Buffer<'_>)
    requires { out.old.len ≡ 0 }
    ensures writes { Renders t.now (held out.old) (held out.new) }
    ensures kept { Kept out.old out.new }
{
    gather(t, 1, out);
    filtered(t, 1, out, 0);
}

// Bytes into the output; refusal 12 where that is shorter. By `copy_from_slice` the archive would need memmove.
fn deliver(bytes: &[u8], output: &mut [u8]) -> Result<usize, Refused>
    ensures { written_in result output.new ≡ delivered bytes.now output.old }
{
    let n = bytes.len();
    if output.len() < n {
        return Err(Refused::QueryBytesTooLong(n));
    }
    for i in 0..n {
        output[i] = bytes[i];
    }
    Ok(n)
}

// The query of a text's words.
fn write(words: &[u32], output: &mut [u8]) -> Result<usize, Refused>
    requires { length words.now ≤ 4096 }
    ensures { Writes words.now output.old output.new result }
{
    let mut ends = [0u16; TEXT_LIMIT + 1];
    let mut space = [0u8; 4 * TEXT_LIMIT];
    let t = Text::new(words, &mut ends);
    let mut buffer = Buffer::new(&mut space, 0);
    render(&t, &mut buffer);
    deliver(buffer.bytes(), output)
}

// The query bytes of a text at the front of the output: refusals 11 and 12.
#[tactic(auto, using(crate::proofs::CallLaws::long_texts))]
pub fn read_text(text: &[u8], output: &mut [u8]) -> Result<usize, Refused>
    ensures { written_in result output.new ≡ read_text text.now output.old }
{
    if TEXT_LIMIT < text.len() {
        return Err(Refused::TextFault(TEXT_LIMIT));
    }
    let mut words = [0u32; TEXT_LIMIT];
    let mut stack = [0u8; 2 * TEXT_LIMIT + 2];
    match scan(text, &mut words, &mut stack) {
        Ok(n) => write(&words[..n], output),
        Err(fault) => Err(Refused::TextFault(fault.0)),
    }
}
