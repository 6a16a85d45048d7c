// The calls of a replay script (docs/REPLAY.md), answered on standard output from a terminal in lent memory: `reset`, `receive` and `save`;
// the others by `replay_edit`, `replay_reads` and `replay_layout`.
#![tactic(auto)]

use keeping::{Document, Memory};
use meaning::{Receipt, Received, Saved};
use readers::take_text;
use replay_text::{
    FILL, LONGEST_BUFFER, block_of, save_of, say, say_number, say_short, say_written,
};
use script::BlockFound;

// The call at a place of a script, and where the next one stands.
#[derive(Clone, Copy)]
enum Call {
    Reset { next: usize },
    Receive(BlockFound),
    Save { size: usize, next: usize },
}

fn find(text: &[u8], a: usize) -> Option<Call> {
    if let Some(next) = take_text(text, a, b"reset\n") {
        return Some(Call::Reset { next });
    }
    if let Some(block) = block_of(text, a, b"receive ") {
        return Some(Call::Receive(block));
    }
    let (size, next) = save_of(text, a, LONGEST_BUFFER as u64)?;
    Some(Call::Save {
        size: size as usize,
        next,
    })
}

// The answer to a message.
fn say_receipt(answer: Receipt) {
    say(b"receive ");
    match answer {
        Ok(Received::Applied { applied, dropped }) => {
            say(b"0 ");
            say_number(applied, b" ");
            say_number(dropped, b"\n");
        }
        Ok(Received::Waiting) => say(b"5\n"),
        Err(refusal) => say_number(refusal.number(), b"\n"),
    }
}

fn say_saved(saved: Saved, buf: &[u8]) {
    match saved {
        Ok(written) => say_written(b"save ", 0, 0, written, buf),
        Err(short) => say_short(b"save ", short.needed, buf),
    }
}

// Saves to a lent buffer that is full of the fill byte.
fn save_to(d: &Document, buf: &mut [u8]) {
    let saved = sheet::save(&d.tables, d.counts, d.seen, buf);
    say_saved(saved, buf);
}

// Saves to a buffer of n bytes.
fn save(d: &Document, n: usize) {
    let mut space = [FILL; LONGEST_BUFFER];
    if let Some(buf) = space.get_mut(..n) {
        save_to(d, buf);
    }
}

// Answers the call at a place of a script, and says where the next one stands.
pub fn answer(m: &mut Memory, text: &[u8], a: usize) -> Option<usize> {
    match find(text, a) {
        Some(Call::Reset { next }) => {
            terminal::reset(m);
            say(b"reset 0 0 0\n");
            Some(next)
        }
        Some(Call::Receive(block)) => {
            say_receipt(terminal::receive(m, block.bytes(text)));
            Some(block.next)
        }
        Some(Call::Save { size, next }) => {
            save(&m.document, size);
            Some(next)
        }
        None => {
            let edited = replay_edit::answer(m, text, a);
            if edited.is_some() {
                return edited;
            }
            let d = &m.document;
            let t = &d.tables;
            replay_reads::answer(&t.heads, &t.keys, &t.values, d.counts, text, a).or_else(
                || replay_layout::answer(text, a),
            )
        }
    }
}
