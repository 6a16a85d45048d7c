// The layout calls of a replay script (docs/REPLAY.md), answered on standard output: a line for each, its name and 0 if the block is in the
// layout that is asked for, else 1.
#![tactic(auto)]

use message::{take_edit, take_element_way, take_keys_way, take_message, take_place_way};
use replay_text::{block_of, say};

// Answers the call with this name, if it stands at a place: whether its block is in the layout. Says where the next call stands.
fn ask<F: FnOnce(&[u8]) -> bool>(text: &[u8], a: usize, name: &[u8], in_layout: F) -> Option<usize>
    requires { F.IsAlwaysCallable in_layout }
{
    let block = block_of(text, a, name)?;
    say(name);
    if in_layout(block.bytes(text)) {
        say(b"0\n");
    } else {
        say(b"1\n");
    }
    Some(block.next)
}

// Answers the layout call at a place of a script, and says where the next call stands, if there is such a call.
pub fn answer(text: &[u8], a: usize) -> Option<usize> {
    ask(text, a, b"ismessage ", |b| take_message(b).is_some())
        .or_else(|| ask(text, a, b"islines ", |b| take_edit(b).is_some()))
        .or_else(|| ask(text, a, b"isvaluesway ", |b| take_place_way(b).is_some()))
        .or_else(|| ask(text, a, b"iskeysway ", |b| take_keys_way(b).is_some()))
        .or_else(|| ask(text, a, b"iselementway ", |b| take_element_way(b).is_some()))
}
