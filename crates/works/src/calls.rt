// The calls of a turn: found in the script once, kept, and made in each turn.
use keeping::Memory;
use replay_text::{LONGEST_BUFFER, Lent, block_of, lent_of, lent_with_number, save_of};
use script::BlockFound;

// The most calls of a turn.
pub const MOST: usize = 512;

// A call in the script: of an edit with the device's number, of a read for an element with the element's.
#[derive(Clone, Copy)]
pub enum Call {
    Receive(BlockFound),
    Edit(u64, Lent),
    Keys(Lent),
    Values(Lent),
    Element(u64, Lent),
    Save { room: usize, next: usize },
}

impl Call {
    // Where the next call begins.
    fn next(self) -> usize {
        match self {
            Call::Receive(block) => block.next,
            Call::Edit(_, l) | Call::Keys(l) | Call::Values(l) | Call::Element(_, l) => l
                .block
                .next,
            Call::Save { room: _, next } => next,
        }
    }

    // The size of the buffer that is lent.
    fn room(self) -> usize {
        match self {
            Call::Receive(_) => 0,
            Call::Edit(_, l) | Call::Keys(l) | Call::Values(l) | Call::Element(_, l) => l.room,
            Call::Save { room, next: _ } => room,
        }
    }
}

// The call at a place of the script.
pub fn find(text: &[u8], a: usize) -> Option<Call> {
    if let Some(block) = block_of(text, a, b"receive ") {
        return Some(Call::Receive(block));
    }
    if let Some(l) = lent_of(text, a, b"keys ") {
        return Some(Call::Keys(l));
    }
    if let Some(l) = lent_of(text, a, b"values ") {
        return Some(Call::Values(l));
    }
    if let Some((device, l)) = lent_with_number(text, a, b"edit ") {
        return Some(Call::Edit(device, l));
    }
    if let Some((index, l)) = lent_with_number(text, a, b"element ") {
        return Some(Call::Element(index, l));
    }
    let (room, next) = save_of(text, a, LONGEST_BUFFER as u64)?;
    Some(Call::Save {
        room: room as usize,
        next,
    })
}

// Finds the calls from a place on, as many as have room.
pub fn find_all(text: &[u8], a: usize, calls: &mut [Option<Call>; MOST]) {
    let mut at = a;
    for place in calls.iter_mut() {
        let Some(call) = find(text, at) else {
            return;
        };
        *place = Some(call);
        at = call.next();
    }
}

// Makes a call, and answers how many bytes it wrote: 0 bytes where it was refused, too.
fn make_call(text: &[u8], call: Call, m: &mut Memory, buf: &mut [u8]) -> usize {
    let Some(buf) = buf.get_mut(..call.room()) else {
        return 0;
    };
    match call {
        Call::Receive(block) => {
            let _ = terminal::receive(m, block.bytes(text));
            0
        }
        Call::Edit(device, l) => match edit::edit(m, device, l.block.bytes(text), buf) {
            Ok(made) => made.written,
            Err(_) => 0,
        },
        Call::Keys(l) => {
            let d = &m.document;
            let t = &d.tables;
            reads::keys(&t.heads, &t.keys, d.counts, l.block.bytes(text), buf).unwrap_or(0)
        }
        Call::Values(l) => {
            let d = &m.document;
            let t = &d.tables;
            let way = l.block.bytes(text);
            reads::values(&t.heads, &t.keys, &t.values, d.counts, way, buf).unwrap_or(0)
        }
        Call::Element(index, l) => {
            let d = &m.document;
            let t = &d.tables;
            let way = l.block.bytes(text);
            reads::element(&t.heads, &t.keys, d.counts, way, index, buf).unwrap_or(0)
        }
        Call::Save { .. } => {
            let d = &m.document;
            sheet::save(&d.tables, d.counts, d.seen, buf).unwrap_or(0)
        }
    }
}

// Makes the calls that were found, and answers how many bytes the last of them wrote that wrote any.
pub fn make_all(
    text: &[u8],
    calls: &[Option<Call>; MOST],
    m: &mut Memory,
    buf: &mut [u8],
) -> usize {
    let mut last = 0;
    for call in calls.iter() {
        let Some(call) = *call else {
            return last;
        };
        let written = make_call(text, call, m, buf);
        if written > 0 {
            last = written;
        }
    }
    last
}
