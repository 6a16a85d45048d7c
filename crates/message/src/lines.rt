// An edit's lines, from `at=` on: the way, what is done, and the value.
ghost use Rattle.std.specs.Prelude.{◌≡◌, drop};
ghost use Rattle.message.specs.Reads.{ReadsValueLine, ReadsDeed, suits};
ghost use Rattle.message.specs.Promises.{ReadsEdit};

use crate::ways::take_way;
use crate::{Deed, Edit};
use readers::{CARET, ELEMENT, Given, take_assigned, take_byte, take_text};

// A value, and the end of its line.
#[tactic(auto, using(crate::proofs::Deeds::no_feed))]
fn take_value_line(s: &[u8], a: usize) -> Option<(Given, usize)>
    ensures { ReadsValueLine s.now a result }
{
    let (given, n) = take_assigned(s, a)?;
    let next = take_byte(s, n, b'\n')?;
    Some((given, next))
}

// The lines behind the way: what is done, and the value.
#[tactic(auto, using(crate::proofs::Deeds::other_deeds))]
fn take_deed(s: &[u8], a: usize) -> Option<(Deed, usize)>
    ensures { ReadsDeed s.now a result }
{
    if let Some(n) = take_text(s, a, b"do=assign\nvalue=") {
        let (given, next) = take_value_line(s, n)?;
        return Some((Deed::Assign(given), next));
    }
    if let Some(n) = take_text(s, a, b"do=insert\nvalue=") {
        let (given, next) = take_value_line(s, n)?;
        return Some((Deed::Insert(given), next));
    }
    let next = take_text(s, a, b"do=delete\n")?;
    Some((Deed::Delete, next))
}

// Whether this may be done at a way with such a last key.
fn may(last: u64, deed: Deed) -> bool
    ensures { result ≡ suits last deed }
{
    match deed {
        Deed::Insert(_) => ELEMENT <= last,
        Deed::Assign(_) | Deed::Delete => last != CARET,
    }
}

// The lines of an edit from a place on, to the end.
pub fn edit_at(s: &[u8], a: usize) -> Option<Edit>
    ensures { ReadsEdit (drop a s.now) result }
{
    let n = take_text(s, a, b"at=")?;
    let w = take_way(s, n)?;
    let o = take_byte(s, w.next, b'\n')?;
    let (deed, end) = take_deed(s, o)?;
    if end < s.len() || !may(w.last, deed) {
        return None;
    }
    Some(Edit { way: w.way, deed })
}

// A local edit: a message's lines from `at=` on.
pub fn take_edit(s: &[u8]) -> Option<Edit>
    ensures { ReadsEdit s.now result }
{
    edit_at(s, 0)
}
