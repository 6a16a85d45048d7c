// What comes and goes at the places of a way, summed up.
ghost use Rattle.std.specs.Prelude.{◌≡◌, ◌<◌, cond};
ghost use Rattle.forecast.specs.Weighs.{plain_given, gives_plain, weight_of, marked, placed, carried, nothing_weighed, put_weighed};
ghost use Rattle.forecast.specs.Weighs.{element_weighed};

use crate::{Forecast, Weight};
use deeds::is_delete;
use message::Deed;
use readers::Given;

// Nothing comes and nothing goes.
pub const WEIGHTLESS: Weight = Weight {
    places: 0,
    marks: 0,
    values: 0,
    gone_marks: 0,
    gone_values: 0,
};

#[tactic(auto, unfolding(crate::specs::Weighs::plain_given))]
fn plain(g: Given) -> bool
    ensures { result ≡ plain_given g }
{
    !matches!(g, Given::Map | Given::List)
}

// Whether a plain value is assigned or inserted.
pub fn gives_plain(deed: Deed) -> bool
    ensures { result ≡ gives_plain deed }
{
    match deed {
        Deed::Assign(g) | Deed::Insert(g) => plain(g),
        Deed::Delete => false,
    }
}

// The mark and the value that come at the deed's place: no mark if it deletes, and a value if it is a plain one.
pub fn put(deed: Deed) -> Weight
    ensures { result ≡ put_weighed deed }
{
    Weight {
        marks: usize::from(!is_delete(deed)),
        values: usize::from(gives_plain(deed)),
        ..WEIGHTLESS
    }
}

// A new element: a place, and what the deed puts there.
pub fn element(deed: Deed) -> Weight
    ensures { result ≡ element_weighed deed }
{
    Weight {
        places: 1,
        ..put(deed)
    }
}

// The mark on the way, unless the operation deletes.
#[tactic(auto, unfolding(crate::specs::Weighs::marked))]
pub fn mark(u: Forecast, deed: Deed) -> Forecast
    requires { (weight_of u).marks < 9223372036854775808 }
    ensures { result ≡ marked u deed }
{
    if is_delete(deed) {
        return u;
    }
    match u {
        Ok(w) => Ok(Weight {
            marks: w.marks + 1,
            ..w
        }),
        Err(w) => Err(Weight {
            marks: w.marks + 1,
            ..w
        }),
    }
}

// What is weighed at a place under a map key that is unknown: it is made, if it is not deleted.
fn place(w: Weight, makes: bool) -> Weight
    requires { w.places < 9223372036854775808 }
    ensures { result ≡ cond makes (placed w) nothing_weighed }
{
    if makes {
        return Weight {
            places: w.places + 1,
            ..w
        };
    }
    WEIGHTLESS
}

// What is weighed at a place that was looked for under a key: an element has to be there, and to be covered; an unknown place under a map
// key is made, if it is not deleted.
#[tactic(auto, unfolding(crate::specs::Weighs::carried))]
pub fn carry(u: Forecast, there: bool, list: bool, covers: bool, makes: bool) -> Forecast
    requires { (weight_of u).places < 9223372036854775808 }
    ensures { result ≡ carried u there list covers makes }
{
    if there {
        return match u {
            Ok(w) if list && !covers => Err(w),
            _ => u,
        };
    }
    if list {
        return Err(WEIGHTLESS);
    }
    match u {
        Ok(w) => Ok(place(w, makes)),
        Err(w) => Err(place(w, makes)),
    }
}
