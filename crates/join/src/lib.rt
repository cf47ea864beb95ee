// The join of two sets: for each d of the inner set, in order, the pairs of d with its ancestors in the outer set, strict or with self. The outer regions that hold a place
// are kept on a stack, which follows the d's as they ascend; where nothing can pair, neither set is read.
#![tactic(auto)]

ghost use Rattle.std.specs.Prelude.{◌≡◌, cond, ◌||◌, ◌<◌, ◌≤◌, min, T, ltb};
ghost use Rattle.words.specs.Lists.{filter};
ghost use Rattle.regions.specs.Limits.{last_account};
ghost use Rattle.regions.specs.Sets.{starts_from};
ghost use Rattle.regions.specs.Calls.{joined};
ghost use Rattle.regions.specs.Desk.{past};
ghost use Rattle.image.specs.Read.{set_of};
ghost use Rattle.image.specs.Valid.{valid};
ghost use Rattle.leaves.specs.Cursors.{step_from, start_faced};
ghost use Rattle.leaves.specs.Faces.{Faces};
ghost use Rattle.skips.specs.Joins.{first_position};
ghost use Rattle.join.specs.Joins.{Joined};

use leaves::Cursor;
use regions::{Kind, Mark};

// Whether more pairs are asked for: all of them, or those that fit.
fn wants_more(total: usize, room: usize, all: bool) -> bool
    ensures { result ≡ (all || ltb total room) }
{
    all || total < room
}

// What is told: the total, or how many were written.
fn told(total: usize, room: usize, all: bool) -> usize
    ensures { result ≡ cond all total (min room total) }
{
    if all { total } else { total.min(room) }
}

// The pairs past a mark, from the cursor at the first d that may have one on, and its start p. The stack begins there.
fn pairs_from(
    outer: &[u32],
    inner: &[u32],
    account: u32,
    kind: Kind,
    mark: Mark,
    out: &mut [u32],
    all: bool,
    first: Cursor,
    p: u32,
) -> usize
    requires outer_valid { T (valid outer.now) }
    requires inner_valid { T (valid inner.now) }
    requires account_le_last_account { (account ≤ last_account) × (first_position account mark < 4294967296) }
    requires faces { Faces inner.now first (filter (starts_from (first_position account mark)) (set_of inner.now).regions) }
    requires p_value { p ≡ start_faced (step_from inner.now first) }
    ensures { Joined (past mark (joined (set_of outer.now) (set_of inner.now) account kind)) all out.old out.new result }
{
    let room = out.len() / 4;
    let choice = regions::choice_of(kind);
    let mut cursor = first;
    let mut held = [0u32; stack::HELD_WORDS];
    let mut s = follow::begin(outer, &mut held, choice, account, mark, p);
    let mut total: usize = 0;
    // No index: it follows the inner leaves' links, as long as more is asked for.
    while wants_more(total, room, all) {
        let Some((entry, on)) = skips::own_step(inner, cursor, account) else {
            break;
        };
        let d = entry.region;
        s = follow::follow(outer, &mut held, choice, s, d.start);
        total = stack::pair_up(&held, s.n, d, kind, mark, out, total, all);
        cursor = skips::next_d(outer, inner, choice, d.start, s, on);
    }
    told(total, room, all)
}

// THE PAIRS PAST A MARK of two valid images, by d's start and then a's: as many as fit, and their total; or, where not all are asked for, how many were
// written, and the walk ends once the slice is full. Where the account has no d that may have one, outer is not read.
pub fn pairs_past(
    outer: &[u32],
    inner: &[u32],
    account: u32,
    kind: Kind,
    mark: Mark,
    out: &mut [u32],
    all: bool,
) -> usize
    requires outer_valid { T (valid outer.now) }
    requires inner_valid { T (valid inner.now) }
    requires account_le_last_account { account ≤ last_account }
    ensures { Joined (past mark (joined (set_of outer.now) (set_of inner.now) account kind)) all out.old out.new result }
{
    let first = leaves::seek_from(inner, skips::first_position(account, mark));
    let p = first.start(inner);
    if regions::account_of(p) != account {
        return 0;
    }
    pairs_from(outer, inner, account, kind, mark, out, all, first, p)
}
