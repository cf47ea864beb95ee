// Decides whether the flags, stored pairs and stab lists of an image are right, and whether every stab record is in one list or free.
// The image's shape and regions are known to be right, so that a key's list is what lies between the keys around it: no key has to be compared
// with the keys of the pages above.
#![tactic(auto)]

ghost use Rattle.std.specs.Prelude.{◌≡◌, ◌<◌, T};
ghost use Rattle.xrtree.specs.Rules.{pair_right, rule6};
ghost use Rattle.pages.specs.Layout.{page_of, record_count};
ghost use Rattle.image.specs.Read.{key_at, set_of};
ghost use Rattle.image.specs.Shape.{shapely, lists_right};
ghost use Rattle.trail.specs.Pass.{Fills};
ghost use Rattle.stablists.specs.Pass.{FillsBelow, first_region, key_pass, pass_at, used_to};

use regions::Region;
use trail::{Home, Trail};

// The leftmost region below a page: the only one right of a key that can start at the key. (No leaf but the root's is empty.)
fn first_region(img: &[u32], depth: usize, p: u32) -> Region
    ensures { result ≡ first_region img.now depth p }
{
    let mut q = p;
    for _ in 0..depth {
        q = pages::child(img, q, 0);
    }
    pages::entry_region(img, q, 0)
}

// Whether the stored pair of key i repeats the region at the head of its list, or is two zeros where there is none.
fn pair_right(img: &[u32], p: u32, i: usize) -> bool
    requires { i < 9 }
    ensures { result ≡ pair_right (key_at img.now (page_of img.now p) i) (key_at img.now (page_of img.now p) i).list }
{
    let k = pages::key_words(img, p, i);
    if k.head == 0 {
        return k.start == 0 && k.end == 0;
    }
    let first = pages::record_region(img, k.head);
    k.start == first.start && k.end == first.end
}

// Key i of a page: its stored pair, and its list. Its regions lie under the child on its left, but for one that may start at the key itself:
// that is the first one under the child on its right.
fn key_list(
    img: &[u32],
    depth: usize,
    p: u32,
    i: usize,
    low: usize,
    high: usize,
    t: Trail,
) -> Option<Trail>
    requires i_bound { i < 9 }
    requires fills_below { FillsBelow depth img.now p i }
    ensures { result ≡ key_pass img.now depth (page_of img.now p) i low high t }
{
    if !pair_right(img, p, i) {
        return None;
    }
    let k = pages::key_words(img, p, i);
    let home = Home {
        low,
        key: k.key as usize,
        high,
    };
    let begun = trail::begin_list(t, k.head);
    let under = trail::meet_tree(img, depth, home, pages::child(img, p, i), begun)?;
    let next = first_region(img, depth, pages::child(img, p, i + 1));
    trail::end_list(trail::meet_region(img, home, next, under)?)
}

// A leaf has flags and no lists.
fn leaf_flags(img: &[u32], p: u32, low: usize, high: usize, t: Trail) -> Option<Trail>
    requires { Fills 0 img.now p }
    ensures { result ≡ pass_at img.now 0 p low high t }
{
    flags::flags_right(img, p, low, high).then_some(t)
}

// All lists and flags below a page, whose keys and starts lie from low on and before high. (Low is one more than the key on the left, high the key on
// the right.)
fn lists(img: &[u32], depth: usize, p: u32, low: usize, high: usize, t: Trail) -> Option<Trail>
    requires { Fills depth img.now p }
    ensures { result ≡ pass_at img.now depth p low high t }
{
    if depth == 0 {
        return leaf_flags(img, p, low, high, t);
    }
    let n = pages::fill(img, p) as usize;
    let mut s = t;
    let mut from = low;
    for i in 0..n {
        let key = pages::key_number(img, p, i) as usize;
        s = key_list(img, depth - 1, p, i, from, high, s)?;
        s = lists(img, depth - 1, pages::child(img, p, i), from, key, s)?;
        from = key + 1;
    }
    lists(img, depth - 1, pages::child(img, p, n), from, high, s)
}

// How many stab records are not free: as many must be met, so that none is in two lists and none in no list. (A `filter` that is counted is slower.)
fn used_records(img: &[u32]) -> usize
    ensures { result ≡ used_to img.now record_count }
{
    let mut n: usize = 0;
    for q in 1..pages::RECORD_COUNT + 1 {
        if pages::record_end(img, q) != 0 {
            n += 1;
        }
    }
    n
}

// Whether flags, stored pairs and stab lists are right, and every stab record is in one list or free.
pub fn lists_right(img: &[u32]) -> bool
    requires img_shapely { T (shapely img.now) }
    requires rule_6 { T (rule6 (set_of img.now)) }
    ensures { result ≡ lists_right img.now }
{
    let depth = words::word(img, 1) as usize - 1;
    let start = Trail {
        at: 0,
        left: used_records(img),
    };
    lists(img, depth, words::word(img, 0), 0, 4294967296, start).is_some_and(|done| done.left == 0)
}
