// The edits of a replay script (docs/REPLAY.md), answered on standard output by a terminal in lent memory.
#![tactic(auto)]

use keeping::Memory;
use meaning::{EditError, Edited};
use replay_text::{FILL, LONGEST_BUFFER, lent_with_number, say_refused, say_short, say_written};

fn say_edited(r: Edited, buf: &[u8]) {
    match r {
        Ok(made) => say_written(b"edit ", made.applied, made.dropped, made.written, buf),
        Err(EditError::ShortBuffer { needed }) => say_short(b"edit ", needed, buf),
        Err(refusal) => say_refused(b"edit ", refusal.number(), buf),
    }
}

// An edit with a lent buffer that is full of the fill byte.
fn edit_into(m: &mut Memory, device: u64, lines: &[u8], buf: &mut [u8]) {
    let r = edit::edit(m, device, lines, buf);
    say_edited(r, buf);
}

// Answers the edit at a place of a script, and says where the next call stands.
pub fn answer(m: &mut Memory, text: &[u8], a: usize) -> Option<usize> {
    let (device, call) = lent_with_number(text, a, b"edit ")?;
    let mut space = [FILL; LONGEST_BUFFER];
    if let Some(buf) = space.get_mut(..call.room) {
        edit_into(m, device, call.block.bytes(text), buf);
    }
    Some(call.block.next)
}
