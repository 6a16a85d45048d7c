// A terminal that is fed a stream of messages, part by part. Document 01, "The saved sheet", last paragraph: the messages are received one
// after another, and refused ones are passed over. Each function is safe on any memory.
#![tactic(auto)]

ghost use Rattle.stream.specs.Pieces.{CutInside};
ghost use Rattle.feed.specs.Feeding.{AllFed};

use keeping::Memory;
use stream::{Cut, Step};

// Receives every message whose end is known, of the bytes that are read and not handed over, and passes over those that are too long;
// `last` if no byte follows them. Answers where the stream goes on. The loop counts nothing: it ends when more bytes are wanted.
pub fn take_in(m: &mut Memory, buf: &[u8], c: Cut, last: bool) -> Cut
    requires { CutInside buf.now c }
    ensures { AllFed m.old buf.now c last result m.new }
{
    let mut cut = c;
    loop {
        match stream::next_piece(buf, cut, last) {
            Step::Message { next } => {
                let _ = terminal::receive(m, &buf[cut.from..next.from]);
                cut = next;
            }
            Step::TooLong { next } => cut = next,
            Step::More { next } => return next,
        }
    }
}
