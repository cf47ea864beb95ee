// The delete of one region from a valid image: its entry and its record go, then the fills are put right from the leaf up to the root.
// A child left with three is merged with a neighbour, or gets from it what it lacks: the neighbour is split, and the near part merged.
#![tactic(auto)]

ghost use Rattle.std.specs.Prelude.{◌≡◌, ℕ, ◌+◌, ◌<◌, T, get_or};
ghost use Rattle.regions.specs.Sets.{deleted};
ghost use Rattle.regions.specs.Calls.{delete_no};
ghost use Rattle.image.specs.Read.{set_of};
ghost use Rattle.image.specs.Valid.{valid};
ghost use Rattle.room.specs.Ways.{Mended};
ghost use Rattle.remove.specs.Mends.{MendAsk, Leads};

use mending::Tier;

// Page `at` of the path, with h + 1 pages below it: first the next page of the path, its child, then itself.
fn mend(img: &mut [u32], path: [u32; 4], at: usize, x: u32, h: usize)
    requires { (at + h < 4) × Leads img.old x path at h × MendAsk img.old (get_or path at 0) x h }
    ensures { (s : MendAsk img.old (get_or path at 0) x h) → Mended img.old img.new s.rs h s.lo s.hi s.o s.t }
{
    if h == 0 {
        mending::mend_page(img, path, at, x, Tier::Leaves);
    } else {
        mend(img, path, at + 1, x, h - 1);
        mending::mend_page(img, path, at, x, Tier::Inners);
    }
}

// DELETE of the region that starts at `start`, which the set has. A root that is left with no key gives way to its only child.
pub fn remove(img: &mut [u32], start: u32)
    requires { (a : ℕ) × T (valid img.old) × (delete_no (set_of img.old) a start ≡ 0) }
    ensures { T (valid img.new) × (set_of img.new ≡ deleted start (set_of img.old)) }
{
    let path = path::descend(img, start);
    entries::take_entry(img, path, start);
    let d = path::depth(img);
    if d == 0 {
        return;
    }
    mend(img, path, 0, start, d - 1);
    let keys = pages::fill(img, path[0]);
    if keys == 0 {
        roots::shrink_root(img);
    }
}
