// What the parts of the program `replay` share (docs/REPLAY.md): a call whose first line has one number, and the lines of answers.
#![tactic(auto)]

use readers::take_byte;
use script::{BlockFound, block, number};

// Where the answers are written.
const STDOUT_FILENO: i32 = 1;

// The longest buffer, and what it is full of ahead of a call.
pub const LONGEST_BUFFER: usize = 65536;

pub const FILL: u8 = 165;

// A call with a block and a buffer: the block, and the buffer's size.
#[derive(Clone, Copy)]
pub struct Lent {
    pub block: BlockFound,
    pub room: usize,
}

// The block of a call with this name, whose first line has one number: that of the block's bytes.
pub fn block_of(text: &[u8], a: usize, name: &[u8]) -> Option<BlockFound> {
    let (n, next) = number(text, a, name, u64::MAX)?;
    block(text, next, n)
}

// A first line that goes on with the buffer's size and ends there, and the block of n bytes.
fn with_buffer(text: &[u8], a: usize, n: u64) -> Option<Lent> {
    let (room, end) = number(text, a, b" ", LONGEST_BUFFER as u64)?;
    let block = block(text, end, n)?;
    Some(Lent {
        block,
        room: room as usize,
    })
}

// A call with this name, whose first line has the numbers of the block's and the buffer's bytes.
pub fn lent_of(text: &[u8], a: usize, name: &[u8]) -> Option<Lent> {
    let (n, next) = number(text, a, name, u64::MAX)?;
    with_buffer(text, next, n)
}

// The same with a number between the two, which comes first.
pub fn lent_with_number(text: &[u8], a: usize, name: &[u8]) -> Option<(u64, Lent)> {
    let (n, b) = number(text, a, name, u64::MAX)?;
    let (other, next) = number(text, b, b" ", u64::MAX)?;
    Some((other, with_buffer(text, next, n)?))
}

// `save`, whose first line has a number of at most `most` and no more; and where the next call begins.
pub fn save_of(text: &[u8], a: usize, most: u64) -> Option<(u64, usize)> {
    let (n, end) = number(text, a, b"save ", most)?;
    let next = take_byte(text, end, b'\n')?;
    Some((n, next))
}

pub fn say(text: &[u8]) {
    io::write_all(STDOUT_FILENO, text);
}

// A number and the bytes behind it. No Display: the kit's `io` prints without heap, and goes by a file's number.
pub fn say_number(n: u64, behind: &[u8]) {
    io::print_decimal(STDOUT_FILENO, n);
    say(behind);
}

// Whether the bytes from a place on are the fill byte still; the answer's line ends with it.
fn say_rest(buf: &[u8], from: usize) {
    let rest = buf.get(from..).unwrap_or(b"");
    if rest.iter().all(|b| *b == FILL) {
        say(b"same\n");
    } else {
        say(b"changed\n");
    }
}

// The answer 0 of a call with a buffer: how many operations were applied and dropped, and what was written.
pub fn say_written(name: &[u8], applied: u64, dropped: u64, written: usize, buf: &[u8]) {
    say(name);
    say(b"0 ");
    say_number(applied, b" ");
    say_number(dropped, b" ");
    say_number(written as u64, b" ");
    say_rest(buf, written);
    say(script::part(buf, 0, written));
    say(b"\n");
}

// The answer 13.
pub fn say_short(name: &[u8], needed: usize, buf: &[u8]) {
    say(name);
    say(b"13 ");
    say_number(needed as u64, b" ");
    say_rest(buf, 0);
}

// An answer that is its number alone.
pub fn say_refused(name: &[u8], number: u64, buf: &[u8]) {
    say(name);
    say_number(number, b" ");
    say_rest(buf, 0);
}
