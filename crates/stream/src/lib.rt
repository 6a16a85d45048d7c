// A stream of bytes taken apart into messages. Document 01, "The saved sheet", last paragraph: each message ends before the next `op=1`
// line, LF included, or at the end.
#![tactic(auto)]

ghost use Rattle.std.specs.Prelude.{◌≡◌, ◌≤◌};
ghost use Rattle.stream.specs.Ends.{Ends};
ghost use Rattle.stream.specs.Pieces.{CutInside, Steps, Moved};
ghost use Rattle.stream.specs.Steps.{handed, waiting, step};

// Where a program stands that reads a stream into a buffer: the bytes from `from` to `to` are read and not handed over; if `passing`, they
// go on with a message that is too long.
#[derive(Clone, Copy)]
pub struct Cut {
    pub from: usize,
    pub to: usize,
    pub passing: bool,
}

// A whole message stands from the old `from` to the new one; a message that is too long ends at the new `from`; or more bytes are needed.
#[derive(Clone, Copy)]
pub enum Step {
    Message { next: Cut },
    TooLong { next: Cut },
    More { next: Cut },
}

// The line that a message begins with.
const OP_LINE: [u8; 5] = *b"op=1\n";

// How many bytes a message has at most.
const LONGEST: usize = 463;

// The place where the message that begins at a ends. By places, which are what is answered.
pub fn next_message(s: &[u8], a: usize) -> usize
    ensures { Ends s.now a result }
{
    for e in a..s.len() {
        if s[e] == b'\n' && s[e + 1..].starts_with(&OP_LINE) {
            return e + 1;
        }
    }
    a.max(s.len())
}

// The message that goes on from the cut ends at e.
#[tactic(auto, unfolding(crate::specs::Steps::handed))]
fn hand(c: Cut, e: usize) -> Step
    requires { c.from ≤ e }
    ensures { result ≡ handed c e }
{
    let next = Cut {
        from: e,
        to: c.to,
        passing: false,
    };
    if c.passing || LONGEST < e - c.from {
        Step::TooLong { next }
    } else {
        Step::Message { next }
    }
}

// No message ends in the bytes that are held. Of a message that is too long the last are enough, as many as an `op=1` line has: with what
// follows, they may be the LF and such a line.
#[tactic(auto, unfolding(crate::specs::Steps::waiting))]
fn wait(c: Cut) -> Cut
    requires { c.from ≤ c.to }
    ensures { result ≡ waiting c }
{
    if LONGEST + OP_LINE.len() < c.to - c.from {
        return Cut {
            from: c.to - OP_LINE.len(),
            to: c.to,
            passing: true,
        };
    }
    c
}

// The next piece of the stream, of which the buffer holds a part; `last` if no byte follows it.
pub fn next_piece(buf: &[u8], c: Cut, last: bool) -> Step
    requires { CutInside buf.now c }
    ensures steps { Steps buf.now c last result }
    ensures value { result ≡ step buf.now c last }
{
    let from = c.from;
    let to = c.to;
    if from == to {
        return Step::More { next: c };
    }
    let e = next_message(&buf[..to], from);
    if e < to || last {
        hand(c, e)
    } else {
        Step::More { next: wait(c) }
    }
}

// Moves the held bytes to the buffer's start, so that more can be read behind them.
pub fn make_room(buf: &mut [u8], c: Cut) -> Cut
    requires { CutInside buf.old c }
    ensures { Moved buf.old c buf.new result }
{
    buf.copy_within(c.from..c.to, 0);
    Cut {
        from: 0,
        to: c.to - c.from,
        passing: c.passing,
    }
}
