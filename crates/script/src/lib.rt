// The calls of a replay script (docs/REPLAY.md), as the programs that answer them find them in the script's bytes: the numbers of a first
// line one after another, and then the block.
#![tactic(auto)]

ghost use Rattle.std.specs.Prelude.{◌≡◌};
ghost use Rattle.script.specs.Calls.{FindsNumber, FindsBlock, part_of};

use decimal::take_decimal;
use readers::{take_byte, take_text};

// The block of a call: the part of the script from one byte up to another, and where the next call begins. Places, not the bytes
// themselves: `block_once` says that two answers are equal.
#[derive(Clone, Copy)]
pub struct BlockFound {
    pub from: usize,
    pub to: usize,
    pub next: usize,
}

impl BlockFound {
    // The block's bytes, of the script in which it was found.
    pub fn bytes(self, s: &[u8]) -> &[u8]
        ensures { result.now ≡ part_of self.from self.to s.now }
    {
        part(s, self.from, self.to)
    }
}

// The number behind a text, which is `most` at most, and the place behind it.
pub fn number(s: &[u8], a: usize, text: &[u8], most: u64) -> Option<(u64, usize)>
    ensures { FindsNumber most text.now s.now a result }
{
    let n = take_text(s, a, text)?;
    take_decimal(s, n, most)
}

// A block of n bytes: the first line's LF, the bytes, and one LF behind them.
pub fn block(s: &[u8], a: usize, n: u64) -> Option<BlockFound>
    ensures { FindsBlock n s.now a result }
{
    let from = take_byte(s, a, b'\n')?;
    let size = n as usize;
    if s.len() - from < size {
        return None;
    }
    let to = from + size;
    let next = take_byte(s, to, b'\n')?;
    Some(BlockFound { from, to, next })
}

// The bytes from one place up to another; none if these aren't places of s, in this order.
pub fn part(s: &[u8], from: usize, to: usize) -> &[u8]
    ensures { result.now ≡ part_of from to s.now }
{
    s.get(from..to).unwrap_or(b"")
}
