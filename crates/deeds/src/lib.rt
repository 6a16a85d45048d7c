// What an operation does, told from its deed and its value.
#![tactic(auto)]

ghost use Rattle.std.specs.Prelude.{◌≡◌, [], ◌∷◌};
ghost use Rattle.deeds.specs.Deeds.{is_delete, is_insert, given_in, branch_of, string_kind, kind_of, parts_of, may_make, inserts_here};

use message::Deed;
use readers::{Given, LONGEST};
use tables::Side;

pub fn is_delete(deed: Deed) -> bool
    ensures { result ≡ is_delete deed }
{
    matches!(deed, Deed::Delete)
}

pub fn is_insert(deed: Deed) -> bool
    ensures { result ≡ is_insert deed }
{
    matches!(deed, Deed::Insert(_))
}

// What is assigned or inserted. No Option: `act::put_element` gives it without asking again whether the deed deletes.
pub fn given_in(deed: Deed) -> Given
    ensures { result ≡ given_in deed }
{
    match deed {
        Deed::Assign(g) | Deed::Insert(g) => g,
        Deed::Delete => Given::Null,
    }
}

// The branch of an empty map or list; none of a plain value.
pub fn branch_of(g: Given) -> Option<Side>
    ensures { result ≡ branch_of g }
{
    match g {
        Given::Map => Some(Side::Map),
        Given::List => Some(Side::List),
        Given::Null
        | Given::True
        | Given::False
        | Given::NonNeg(_)
        | Given::Neg(_)
        | Given::String(_) => None,
    }
}

#[tactic(auto, unfolding(crate::specs::Deeds::string_kind))]
fn string_kind(n: u64) -> u64
    ensures { result ≡ string_kind n }
{
    if n > 32 { 5 } else { 5 + n }
}

// The number of a plain value's kind; a string's tells its length. A number and no enum: it is a word of the table.
pub fn kind_of(g: Given) -> u64
    ensures { result ≡ kind_of g }
{
    match g {
        Given::Null | Given::Map | Given::List => 0,
        Given::True => 1,
        Given::False => 2,
        Given::NonNeg(_) => 3,
        Given::Neg(_) => 4,
        Given::String(bytes) => string_kind(bytes.len),
    }
}

// A plain value's words: an integer's first, a string's bytes.
pub fn parts_of(g: Given) -> [u64; 4]
    ensures { result ≡ parts_of g }
{
    match g {
        Given::NonNeg(n) | Given::Neg(n) => [n, 0, 0, 0],
        Given::String(bytes) => bytes.words,
        Given::Null | Given::True | Given::False | Given::Map | Given::List => [0; 4],
    }
}

// Whether an unknown place is made: it has a key, and isn't the target of a delete.
#[tactic(auto, unfolding(crate::specs::Deeds::may_make))]
pub fn may_make(len: u64, left: usize, deed: Deed) -> bool
    ensures { result ≡ may_make len left deed }
{
    len <= LONGEST && (left > 0 || !is_delete(deed))
}

// Whether the way's last key is the predecessor of a new element.
#[tactic(auto, unfolding(crate::specs::Deeds::inserts_here))]
pub fn inserts_here(left: usize, deed: Deed) -> bool
    ensures { result ≡ inserts_here left deed }
{
    left == 3 && is_insert(deed)
}
