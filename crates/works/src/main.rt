// The program that bench/works times. Plays a script of docs/REPLAY.md: the `receive` calls ahead of the first `save` build a terminal;
// then come as many turns as the number of that `save` says. A turn takes a copy of the terminal and makes the calls behind the `save`,
// which are found in the script once: `receive`, `edit`, the reads and `save`, in any order. Says how many places, marks, values and
// waiting messages there are at the end, and how many bytes the last call wrote that wrote any.
#![tactic(auto)]

mod calls;

use calls::{Call, MOST, find, find_all, make_all};
use keeping::Memory;
use replay_text::{LONGEST_BUFFER, save_of, say_number};
use tables::Counts;

// Where the script is read.
const STDIN_FILENO: i32 = 0;

// How many places, marks, values and waiting messages there are, and how many bytes the last call wrote that wrote any.
#[derive(Clone, Copy)]
struct Played {
    counts: Counts,
    waiting: usize,
    written: usize,
}

// Receives the messages up to the first call that is another one, and says where it stands. Only a call tells where the next one stands, so
// the turns are as many as there are bytes.
fn build(text: &[u8], m: &mut Memory) -> usize {
    let mut at: usize = 0;
    for _ in 0..text.len() {
        let Some(Call::Receive(block)) = find(text, at) else {
            break;
        };
        let _ = terminal::receive(m, block.bytes(text));
        at = block.next;
    }
    at
}

// Lays a copy of a terminal over another, field by field: what a call answers by value is copied once more, and `Copy` would let 49 KB be
// copied unseen.
fn copy_to(m: &mut Memory, built: &Memory) {
    let d = &mut m.document;
    let b = &built.document;
    d.tables.heads = b.tables.heads;
    d.tables.keys = b.tables.keys;
    d.tables.marks = b.tables.marks;
    d.tables.values = b.tables.values;
    d.counts = b.counts;
    d.seen = b.seen;
    m.waiting = built.waiting;
    m.count = built.count;
}

// One turn with a copy of the terminal, in memory that is there.
fn turn(
    text: &[u8],
    calls: &[Option<Call>; MOST],
    built: &Memory,
    m: &mut Memory,
    buf: &mut [u8],
) -> Played {
    copy_to(m, built);
    let written = make_all(text, calls, m, buf);
    Played {
        counts: m.document.counts,
        waiting: m.count,
        written,
    }
}

// Builds the terminal, and plays the turns, of the calls behind the `save` that says how many.
fn play(text: &[u8]) -> Played {
    let mut m = terminal::new();
    let at = build(text, &mut m);
    let mut last = Played {
        counts: m.document.counts,
        waiting: m.count,
        written: 0,
    };
    let Some((count, next)) = save_of(text, at, u64::MAX) else {
        return last;
    };
    let mut calls = [None; MOST];
    find_all(text, next, &mut calls);
    let mut buf = [0u8; LONGEST_BUFFER];
    let mut copy = terminal::new();
    for _ in 0..count {
        last = turn(text, &calls, &m, &mut copy, &mut buf);
    }
    last
}

fn main() {
    let mut text = [0u8; 131072];
    let n = io::read_full(STDIN_FILENO, &mut text);
    let r = play(&text[..n]);
    say_number(r.counts.rows as u64, b" ");
    say_number(r.counts.marks as u64, b" ");
    say_number(r.counts.values as u64, b" ");
    say_number(r.waiting as u64, b" ");
    say_number(r.written as u64, b"\n");
}
