// Where a token begins.
#![tactic(auto)]

ghost use Rattle.std.specs.Prelude.{◌<◌, length};

use scanner::Cursor;

// Its place in a text, whether a word, number or variable ends there, and the symbol on top of the stack.
#[derive(Clone, Copy)]
pub struct Start<'a> {
    pub here: Cursor<'a>,
    pub tight: bool,
    pub symbol: u8,
    ghost inside: { here.at < length here.text.now },
}
