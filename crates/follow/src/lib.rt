// The outer regions that hold a place, by the choice, kept on a stack while the place moves on: made anew by one search, or brought from one place to the next entry by
// entry.
#![tactic(auto)]

ghost use Rattle.std.specs.Prelude.{◌≤◌, ◌≡◌, T, length};
ghost use Rattle.regions.specs.Limits.{last_account};
ghost use Rattle.regions.specs.Positions.{lowest, too_late};
ghost use Rattle.image.specs.Valid.{valid};
ghost use Rattle.stack.specs.Stacks.{held_words};
ghost use Rattle.follow.specs.Places.{Placed, Behind, Coming};

use leaves::Cursor;
use regions::{Choice, Mark};

// The outer regions that hold a place, as words beside it: how many, and the cursor at the first that starts too late to hold the place.
#[derive(Clone, Copy)]
pub struct Stack {
    pub n: usize,
    pub cur: Cursor,
}

// Whether the last entry of a leaf starts before p. It says only which way to p is the shorter one: either answer is right.
pub fn is_far(img: &[u32], leaf: u32, p: u32) -> bool {
    let n = pages::fill(img, leaf) as usize;
    n != 0 && n <= 8 && pages::entry_start(img, leaf, n - 1) < p
}

// Whether a search leads to p sooner than the entries do, from one that ends at `end` in that leaf: not where it holds p, nor where p's place is in this leaf or the next.
// A search looks into every page of its path: by count it costs as much as some eleven entries.
fn is_over(outer: &[u32], leaf: u32, end: u32, p: u32) -> bool {
    end <= p && is_far(outer, leaf, p) && is_far(outer, pages::next_leaf(outer, leaf), p)
}

// The stack at p, by one descent: the ancestors along p's path, and the cursor in the leaf where it ends.
fn refill(outer: &[u32], held: &mut [u32], choice: Choice, p: u32) -> Stack
    requires outer_valid { T (valid outer.now) }
    requires held_len { length held.old ≡ held_words }
    ensures { Placed outer.now (too_late choice p) p held.new result }
{
    let way = path::descend(outer, p);
    let n = search::ancestors_along(outer, way, choice, p, held).total;
    let cur = leaves::seek_along(outer, way, choice, p);
    Stack { n, cur }
}

// The stack where the pairs begin, at p or before it. No region goes beyond its account, so that none holds the account's first position strictly: there it is empty, and what
// starts there is still to come.
pub fn begin(
    outer: &[u32],
    held: &mut [u32],
    choice: Choice,
    account: u32,
    mark: Mark,
    p: u32,
) -> Stack
    requires outer_valid { T (valid outer.now) }
    requires account_le_last_account { (account ≤ last_account) × (length held.old ≡ held_words) }
    requires account_bound { lowest account ≤ p }
    ensures { Behind outer.now (too_late choice p) p held.new result }
{
    match mark {
        Mark::Fresh => {
            let cur = leaves::seek_from(outer, account * regions::ACCOUNT_POSITIONS);
            Stack { n: 0, cur }
        }
        Mark::Last(_, _) => refill(outer, held, choice, p),
    }
}

// On to p: entry by entry, and where one that does not hold p stands leaves before it, by one descent. Most often the entry faced starts too late: only its start is
// read then.
fn catch_up(outer: &[u32], held: &mut [u32], choice: Choice, mut s: Stack, p: u32) -> Stack
    requires outer_valid { T (valid outer.now) }
    requires coming { Coming outer.now (too_late choice p) p held.old s }
    ensures { Placed outer.now (too_late choice p) p held.new result }
{
    // No index: it follows the leaves' links, as far as the starts come in time.
    while regions::in_time(choice, p, s.cur.start(outer)) {
        let Some((entry, cur)) = s.cur.step(outer) else {
            break;
        };
        if is_over(outer, s.cur.leaf, entry.region.end, p) {
            return refill(outer, held, choice, p);
        }
        let n = stack::push(held, s.n, entry.region, p);
        s = Stack { n, cur };
    }
    s
}

// The stack from one place to the next.
pub fn follow(outer: &[u32], held: &mut [u32], choice: Choice, s: Stack, p: u32) -> Stack
    requires outer_valid { T (valid outer.now) }
    requires behind { Behind outer.now (too_late choice p) p held.old s }
    ensures { Placed outer.now (too_late choice p) p held.new result }
{
    let n = stack::pop_ended(held, s.n, p);
    catch_up(outer, held, choice, Stack { n, ..s }, p)
}
