// Document 01, "Ids, what was seen, what depends": the tests on eight counters, each equal to its definition in `meaning`.
// An id c.r is the number c * 8 + (r - 1), so its terminal's entry is number id % 8. No function asks anything of its caller.
// These are functions and no methods of `Counters`: a type's methods stand in its crate, and `meaning` holds definitions alone.
#![tactic(auto)]

ghost use Rattle.std.specs.Prelude.{◌≡◌};
ghost use Rattle.meaning.specs.Ids as Ids;
ghost use Rattle.meaning.specs.Edit as Edit;
ghost use Rattle.meaning.specs.Judge as Judge;
ghost use Rattle.meaning.specs.Ways.{Operation};
ghost use Rattle.counters.specs.Counted.{raised, Says};

use meaning::Counters;

// The entry of the terminal with number n + 1; 0 past the eighth.
pub fn entry(d: Counters, n: u64) -> u64
    ensures { result ≡ Ids.entry d.at n }
{
    d.at.get(n as usize).map_or(0, |x| u64::from(*x))
}

// Whether the id is covered by d, which is lent, for a loop over many ids: counters by value are copied at each call.
#[tactic(auto, unfolding(meaning::specs::Ids::covered))]
pub fn covered(d: &Counters, id: u64) -> bool
    ensures { result ≡ Ids.covered d.now.at id }
{
    id / 8 <= u64::from(d.at[(id % 8) as usize])
}

// Whether each entry of d is at most that of s.
pub fn at_most(d: Counters, s: Counters) -> bool
    ensures { result ≡ Ids.at_most d.at s.at }
{
    d.at.iter().zip(s.at.iter()).all(|(x, y)| x <= y)
}

// Whether each entry of d is below c.
pub fn all_below(c: u64, d: Counters) -> bool
    ensures { result ≡ Ids.all_below c d.at }
{
    d.at.iter().all(|x| u64::from(*x) < c)
}

// Whether an operation with this id and deps d is ready where s is seen.
#[tactic(auto, unfolding(meaning::specs::Ids::ready))]
pub fn ready(s: Counters, id: u64, d: Counters) -> bool
    ensures { result ≡ Ids.ready s.at id d.at }
{
    let n = id % 8;
    entry(d, n) == entry(s, n) && at_most(d, s)
}

// Seen after the operation: its terminal's entry is its counter. An id whose counter no message carries leaves s as it is.
#[tactic(auto, unfolding(crate::specs::Counted::raised))]
pub fn raise(s: Counters, id: u64) -> Counters
    ensures { result.at ≡ raised s.at id }
{
    let mut r = s;
    if let Ok(c) = u32::try_from(id / 8) {
        r.at[(id % 8) as usize] = c;
    }
    r
}

// The largest entry.
pub fn largest(s: Counters) -> u64
    ensures { result ≡ Edit.largest s.at }
{
    s.at.iter().max().map_or(0, |x| u64::from(*x))
}

// 11: whether an entry is the last counter.
pub fn spent(s: Counters) -> bool
    ensures { result ≡ Edit.spent s.at }
{
    s.at.contains(&u32::MAX)
}

// 2: whether the id's counter isn't above every entry of deps.
#[tactic(auto, unfolding(meaning::specs::Judge::not_above))]
pub fn not_above(id: u64, deps: Counters) -> bool
    ensures { Says Judge.not_above id deps.at result }
{
    !all_below(id / 8, deps)
}

// 3: whether the id's counter isn't above its terminal's entry of seen.
#[tactic(auto, unfolding(meaning::specs::Judge::repeated))]
pub fn repeated(seen: Counters, id: u64) -> bool
    ensures { (o : Operation) → o.id ≡ id → result ≡ Judge.repeated seen.at o }
{
    id / 8 <= entry(seen, id % 8)
}

// 4: whether deps has less of the operation's own terminal than was seen.
#[tactic(auto, unfolding(meaning::specs::Judge::own_deps_behind))]
pub fn own_deps_behind(seen: Counters, id: u64, deps: Counters) -> bool
    ensures { Says (Judge.own_deps_behind seen.at) id deps.at result }
{
    let n = id % 8;
    entry(deps, n) < entry(seen, n)
}
