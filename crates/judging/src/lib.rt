// Document 01, "What is answered": an operation judged on the document as it stands, before anything is changed. Whatever the memory
// contains, each function stays in bounds and terminates, and it changes no word. Tables are lent as slices of any length
// (docs/DECISIONS.md, 40).
#![tactic(auto)]

mod limits;

ghost use Rattle.std.specs.Prelude.{◌≡◌};
ghost use Rattle.tables.specs.Holding.{four};
ghost use Rattle.judging.specs.Judging.{is_taken, TopsIn, JudgesCounters, JudgesReady, Judges};
ghost use Rattle.judging.specs.Errors.{refusal_of, receive_error, edit_error};

use limits::{goes_down, has_room, is_small};
use meaning::{Counters, EditError, ReceiveError};
use message::Operation;
use readers::Key;
use tables::{Counts, Position, START};

// The refusals of an operation, by name: 2, 3, 4, 8, 9, 10.
#[derive(Clone, Copy, PartialEq, Eq)]
pub enum Refusal {
    Counter,
    Repeat,
    OwnDeps,
    NoElement,
    NotSmaller,
    NoRoom,
}

// The refusals of an operation that is ready: 8, 9, 10. Each is a `Refusal` too, by `From`, so that an edit has no case that it can't meet.
#[derive(Clone, Copy, PartialEq, Eq)]
pub enum Unfit {
    NoElement,
    NotSmaller,
    NoRoom,
}

// An operation that isn't refused is ready, or it comes too early.
#[derive(Clone, Copy, PartialEq, Eq)]
pub enum Readiness {
    Ready,
    Early,
}

// What an operation comes to: it is ready and may be taken; it comes too early; or it is refused.
pub type Judgement = Result<Readiness, Refusal>;

impl From<Unfit> for Refusal {
    ghost from_gives = { λ u r. r ≡ refusal_of u };

    fn from(u: Unfit) -> Refusal {
        match u {
            Unfit::NoElement => Refusal::NoElement,
            Unfit::NotSmaller => Refusal::NotSmaller,
            Unfit::NoRoom => Refusal::NoRoom,
        }
    }
}

impl From<Refusal> for ReceiveError {
    ghost from_gives = { λ r e. e ≡ receive_error r };

    fn from(r: Refusal) -> ReceiveError {
        match r {
            Refusal::Counter => ReceiveError::Counter,
            Refusal::Repeat => ReceiveError::Repeat,
            Refusal::OwnDeps => ReceiveError::OwnDeps,
            Refusal::NoElement => ReceiveError::NoElement,
            Refusal::NotSmaller => ReceiveError::NotSmaller,
            Refusal::NoRoom => ReceiveError::NoRoom,
        }
    }
}

impl From<Unfit> for EditError {
    ghost from_gives = { λ u e. e ≡ edit_error u };

    fn from(u: Unfit) -> EditError {
        match u {
            Unfit::NoElement => EditError::NoElement,
            Unfit::NotSmaller => EditError::NotSmaller,
            Unfit::NoRoom => EditError::NoRoom,
        }
    }
}

// 8, 9, 10, of an operation that is ready, from where the search for its first key stops.
pub fn judge_ready(
    heads: &[u64],
    keys: &[u64],
    marks: &[u64],
    values: &[u64],
    c: Counts,
    top: Position,
    op: Operation,
) -> Result<(), Unfit>
    ensures { JudgesReady (four heads.now keys.now marks.now values.now) c top op result }
{
    let n = op.way.n;
    if n == 0 || n > 8 {
        return Err(Unfit::NoElement);
    }
    let words = op.way.keys;
    let end = 3 * n;
    let w = forecast::weigh(
        heads,
        keys,
        marks,
        values,
        c.rows,
        top,
        &op.act,
        &words[..end],
    )
    .or(Err(Unfit::NoElement))?;
    if goes_down(op.act.deed, op.act.id, words[end - 3], words[end - 1]) {
        return Err(Unfit::NotSmaller);
    }
    if !is_small(c, w) || !has_room(c, w) {
        return Err(Unfit::NoRoom);
    }
    Ok(())
}

// 2, 3, 4, and whether it comes too early.
pub fn judge_counters(seen: Counters, op: Operation) -> Judgement
    ensures { JudgesCounters seen op result }
{
    let id = op.act.id;
    let deps = op.act.deps;
    if counters::not_above(id, deps) {
        return Err(Refusal::Counter);
    }
    if counters::repeated(seen, id) {
        return Err(Refusal::Repeat);
    }
    if counters::own_deps_behind(seen, id, deps) {
        return Err(Refusal::OwnDeps);
    }
    if counters::ready(seen, id, deps) {
        return Ok(Readiness::Ready);
    }
    Ok(Readiness::Early)
}

// Where the search for the way's first key stops: it is the longest, and made once for judging and carrying out.
pub fn top_of(heads: &[u64], keys: &[u64], rows: usize, op: Operation) -> Position
    ensures { TopsIn heads.now keys.now rows op.way.keys result }
{
    let words = op.way.keys;
    let top = Key {
        hi: words[0],
        lo: words[1],
        len: words[2],
    };
    let w = tables::search_of(1, top);
    tables::find(heads, keys, rows, START, w)
}

// 2, 3, 4; then, if it is ready, 8, 9, 10.
pub fn judge(
    heads: &[u64],
    keys: &[u64],
    marks: &[u64],
    values: &[u64],
    c: Counts,
    seen: Counters,
    op: Operation,
) -> Judgement
    ensures { Judges (four heads.now keys.now marks.now values.now) c seen op result }
{
    let readiness = judge_counters(seen, op)?;
    match readiness {
        Readiness::Ready => {
            let top = top_of(heads, keys, c.rows, op);
            judge_ready(heads, keys, marks, values, c, top, op)?;
            Ok(Readiness::Ready)
        }
        Readiness::Early => Ok(Readiness::Early),
    }
}

// Whether an operation is taken.
pub fn is_taken(answer: Judgement) -> bool
    ensures { result ≡ is_taken answer }
{
    matches!(answer, Ok(Readiness::Ready))
}
