// Where the join goes on: at the first place where pairs can begin, at the next d of the account, and past what no outer region holds.
#![tactic(auto)]

ghost use Rattle.std.specs.Prelude.{◌≡◌, suc, ◌<◌, ◌≤◌, T, ltb};
ghost use Rattle.words.specs.Lists.{filter};
ghost use Rattle.regions.specs.Limits.{last_account};
ghost use Rattle.regions.specs.Positions.{too_late};
ghost use Rattle.regions.specs.Sets.{starts_from};
ghost use Rattle.image.specs.Read.{set_of};
ghost use Rattle.image.specs.Valid.{valid};
ghost use Rattle.leaves.specs.Cursors.{step_from};
ghost use Rattle.leaves.specs.Faces.{Faces};
ghost use Rattle.skips.specs.Joins.{Before, first_position, own_step, first_held, Moved};

use follow::Stack;
use leaves::{Cursor, Entry};
use regions::{Choice, Mark};

// Where the pairs of an account past a mark can begin: at its first position, or at the marked d where that comes later.
#[tactic(auto, unfolding(crate::specs::Joins::first_position))]
pub fn first_position(account: u32, mark: Mark) -> u32
    requires { account ≤ last_account }
    ensures { result ≡ first_position account mark }
{
    let low = account * regions::ACCOUNT_POSITIONS;
    match mark {
        Mark::Fresh => low,
        Mark::Last(_, d) => low.max(d),
    }
}

// The next d of the account, with the cursor moved on. Starts ascend, so that behind the first d of another account there is none.
pub fn own_step(inner: &[u32], cursor: Cursor, account: u32) -> Option<(Entry, Cursor)>
    requires { cursor.at < 9 }
    ensures { result ≡ own_step account (step_from inner.now cursor) }
{
    let (entry, on) = cursor.step(inner)?;
    if regions::account_of(entry.region.start) == account {
        Some((entry, on))
    } else {
        None
    }
}

// The cursor at the first entry that a region may hold which starts at x, by a descent: behind x, or with self at it.
fn seek_held(img: &[u32], choice: Choice, x: u32) -> Cursor
    requires { T (valid img.now) }
    ensures { Faces img.now result (filter (starts_from (first_held choice x)) (set_of img.now).regions) }
{
    match choice {
        Choice::Strict => leaves::seek(img, x),
        Choice::WithSelf => leaves::seek_from(img, x),
    }
}

// The same from a cursor before it: entry by entry, and where the leaf does not reach x, by a descent.
fn forward(img: &[u32], on: Cursor, choice: Choice, x: u32) -> Cursor
    requires img_valid { T (valid img.now) }
    requires before { Before img.now (first_held choice x) on }
    ensures { Faces img.now result (filter (starts_from (first_held choice x)) (set_of img.now).regions) }
{
    let mut cur = on;
    // No index: it follows the leaves' links, as far as the starts come too soon.
    while !regions::in_time(choice, cur.start(img), x) {
        let Some((_, next)) = cur.step(img) else {
            break;
        };
        if follow::is_far(img, cur.leaf, x) {
            return seek_held(img, choice, x);
        }
        cur = next;
    }
    cur
}

// To the next d. Where no outer region holds p, none holds a position before the next outer start, nor strictly that start itself: what stands up to there is skipped. A
// region that opens there holds what comes behind it, and with self its own start. (As long as one holds p, it may hold the next d, however few outer regions are left.)
pub fn next_d(outer: &[u32], inner: &[u32], choice: Choice, p: u32, s: Stack, on: Cursor) -> Cursor
    requires outer_valid { T (valid outer.now) }
    requires inner_valid { T (valid inner.now) }
    requires faces { Faces outer.now s.cur (filter (starts_from (too_late choice p)) (set_of outer.now).regions) }
    requires faces_2 { Faces inner.now on (filter (starts_from (suc p)) (set_of inner.now).regions) }
    requires p_bound { suc p < 4294967296 }
    ensures { Moved choice (set_of outer.now).regions inner.now p on (ltb 0 s.n) result }
{
    if 0 < s.n {
        return on;
    }
    forward(inner, on, choice, s.cur.start(outer))
}
