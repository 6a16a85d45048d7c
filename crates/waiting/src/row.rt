// An operation as forty words: written, and read. What stands where says specs/Rows.
ghost use Rattle.std.specs.Prelude.{◌+◌, ◌≤◌, ◌<◌, ◌≡◌, length};
ghost use Rattle.words.specs.Words.{run, over_at};
ghost use Rattle.waiting.specs.Rows.{given_code, given_number, given_words, given_by, coded, deed_by, counters, held_words, ReadsRow};

use meaning::Counters;
use message::{Act, Deed, Operation, Way};
use readers::{Given, Packed};
use std::array;
use words::lay;

// What is done, as it is kept: a code, the number that comes with it, and the words of a string. A number for each case, since the table is
// of words (fixed memory).
#[derive(Clone, Copy)]
struct Coded {
    code: u64,
    number: u64,
    words: [u64; 4],
}

// The code of a value.
fn given_code(g: Given) -> u64
    ensures { (result ≡ given_code g) × (result < 8) }
{
    match g {
        Given::Null => 0,
        Given::True => 1,
        Given::False => 2,
        Given::NonNeg(_) => 3,
        Given::Neg(_) => 4,
        Given::String(_) => 5,
        Given::Map => 6,
        Given::List => 7,
    }
}

// The number that comes with it.
fn given_number(g: Given) -> u64
    ensures { result ≡ given_number g }
{
    match g {
        Given::NonNeg(n) | Given::Neg(n) => n,
        Given::String(bytes) => bytes.len,
        Given::Null | Given::True | Given::False | Given::Map | Given::List => 0,
    }
}

// The words of a string, and of any other value none.
fn given_words(g: Given) -> [u64; 4]
    ensures { result ≡ given_words g }
{
    match g {
        Given::String(bytes) => bytes.words,
        Given::NonNeg(_) | Given::Neg(_) => [0; 4],
        Given::Null | Given::True | Given::False | Given::Map | Given::List => [0; 4],
    }
}

// The value of a code, a number and words.
#[tactic(auto, unfolding(crate::specs::Rows::given_by))]
fn given_by(code: u64, n: u64, words: [u64; 4]) -> Given
    ensures { result ≡ given_by code n words }
{
    match code {
        0 => Given::Null,
        1 => Given::True,
        2 => Given::False,
        3 => Given::NonNeg(n),
        4 => Given::Neg(n),
        5 => Given::String(Packed { words, len: n }),
        6 => Given::Map,
        _ => Given::List,
    }
}

impl From<Deed> for Coded {
    ghost from_gives = { λ d c. c ≡ coded d };

    fn from(d: Deed) -> Coded {
        match d {
            Deed::Assign(g) => Coded {
                code: 1 + given_code(g),
                number: given_number(g),
                words: given_words(g),
            },
            Deed::Insert(g) => Coded {
                code: 9 + given_code(g),
                number: given_number(g),
                words: given_words(g),
            },
            Deed::Delete => Coded {
                code: 0,
                number: 0,
                words: [0; 4],
            },
        }
    }
}

impl From<Coded> for Deed {
    ghost from_gives = { λ c d. d ≡ deed_by c };

    #[tactic(auto, unfolding(crate::specs::Rows::deed_by))]
    fn from(c: Coded) -> Deed {
        if c.code == 0 {
            return Deed::Delete;
        }
        if c.code < 9 {
            return Deed::Assign(given_by(c.code - 1, c.number, c.words));
        }
        Deed::Insert(given_by(c.code - 9, c.number, c.words))
    }
}

// The counters that stand at `from`, of each word 32 bits.
pub(crate) fn counters_at(t: &[u64], from: usize) -> Counters
    requires { from + 8 ≤ length t.now }
    ensures { result.at ≡ counters (run from 8 t.now) }
{
    Counters {
        at: array::from_fn(|i| (t[from + i] % 4294967296) as u32),
    }
}

// Writes the words of an operation from `at` on.
pub(crate) fn write_row(t: &mut [u64], at: usize, op: Operation)
    requires { at + 40 ≤ length t.old }
    ensures { t.new ≡ over_at at (held_words op) t.old }
{
    let deps = op.act.deps.at.map(u64::from);
    let keys = op.way.keys;
    let n = op.way.n;
    let done = Coded::from(op.act.deed);
    t[at] = op.act.id;
    lay(t, at + 1, &deps);
    lay(t, at + 9, &keys);
    lay(t, at + 33, &[n as u64, done.code, done.number]);
    lay(t, at + 36, &done.words);
}

// The operation whose words stand at `at`.
#[tactic(auto, unfolding(words::specs::Words::run))]
pub(crate) fn read_row(t: &[u64], at: usize) -> Operation
    requires { at + 40 ≤ length t.now }
    ensures { ReadsRow t.now at result }
{
    let deps = counters_at(t, at + 1);
    let mut keys = [0u64; 24];
    keys.copy_from_slice(&t[at + 9..at + 33]);
    let mut words = [0u64; 4];
    words.copy_from_slice(&t[at + 36..at + 40]);
    let n = t[at + 33] as usize;
    let done = Coded {
        code: t[at + 34],
        number: t[at + 35],
        words,
    };
    let act = Act {
        id: t[at],
        deps,
        deed: Deed::from(done),
    };
    Operation {
        act,
        way: Way { keys, n },
    }
}
