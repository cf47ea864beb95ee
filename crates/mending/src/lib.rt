// A page that holds too few, and its neighbour: merged where they fit in one page, else joined and split anew.
#![tactic(auto)]

ghost use Rattle.std.specs.Prelude.{◌≡◌, ◌+◌, ◌<◌, get_or};
ghost use Rattle.pages.specs.Layout.{page_of, fill_of, child_in};
ghost use Rattle.steps.specs.Steps.{Split, Merged};
ghost use Rattle.room.specs.Ways.{Mended};
ghost use Rattle.xrtree.specs.Holes.{fill};
ghost use Rattle.mending.specs.Mends.{keys_down, SplitAsk, MergeAsk, ThinLeft, ThinRight, PairMended, Thin};

// What the children of a page are.
#[derive(Clone, Copy, Debug, PartialEq, Eq)]
pub enum Tier {
    Leaves,
    Inners,
}

impl Tier {
    // The most that the neighbour of a page of three may hold to become one page with it: eight, and of inner pages the key between the two is one of them.
    fn most_joined(self) -> usize
        ensures { result + keys_down self ≡ 5 }
    {
        match self {
            Tier::Leaves => 5,
            Tier::Inners => 4,
        }
    }

    // How much the near part of a neighbour on the right holds where one comes over: of inner pages that one is the key between the two.
    fn lent(self) -> usize
        ensures { result + keys_down self ≡ 1 }
    {
        match self {
            Tier::Leaves => 1,
            Tier::Inners => 0,
        }
    }
}

// Children j and j + 1 of page number `at` of the path become one.
fn merge_pages(img: &mut [u32], path: [u32; 4], at: usize, j: usize, tier: Tier)
    requires { (at < 4) × MergeAsk img.old (get_or path at 0) j (keys_down tier) }
    ensures { (s : MergeAsk img.old (get_or path at 0) j (keys_down tier)) → Merged img.old img.new s.h (get_or path at 0) j s.pair }
{
    match tier {
        Tier::Leaves => merge::leaves(img, path, at, j),
        Tier::Inners => merge::inners(img, path, at, j),
    }
}

// Child i of page number `at` of the path keeps its first c entries or keys, the rest goes to a new page on its right. It promises `Split` itself: so its `key-made`, rule 2, holds of every split of a delete.
fn split_page(img: &mut [u32], path: [u32; 4], at: usize, i: usize, c: usize, tier: Tier)
    requires { (at < 4) × SplitAsk img.old (get_or path at 0) i c (keys_down tier) }
    ensures { (s : SplitAsk img.old (get_or path at 0) i c (keys_down tier)) → Split img.old img.new s.h (get_or path at 0) i c s.child_at }
{
    match tier {
        Tier::Leaves => split::leaf(img, path, at, i, c),
        Tier::Inners => split::inner(img, path, at, i, c),
    }
}

// How many entries or keys child i of page q says it has.
fn child_fill(img: &[u32], q: u32, i: usize) -> usize
    requires { i < 10 }
    ensures { result ≡ fill_of (page_of img.now (child_in (page_of img.now q) i)) }
{
    pages::fill(img, pages::child(img, q, i)) as usize
}

// Child j of page `at` of the path holds three. Where its right neighbour has too many to join it, one of them comes over.
fn mend_left(img: &mut [u32], path: [u32; 4], at: usize, j: usize, tier: Tier)
    requires { (at < 4) × ThinLeft img.old (get_or path at 0) j (keys_down tier) }
    ensures { (s : ThinLeft img.old (get_or path at 0) j (keys_down tier)) → PairMended img.new s.couple }
{
    let n = child_fill(img, path[at], j + 1);
    if n <= tier.most_joined() {
        merge_pages(img, path, at, j, tier);
    } else {
        split_page(img, path, at, j + 1, tier.lent(), tier);
        merge_pages(img, path, at, j, tier);
    }
}

// Child j + 1 of page `at` of the path holds three: likewise with its left neighbour.
fn mend_right(img: &mut [u32], path: [u32; 4], at: usize, j: usize, tier: Tier)
    requires { (at < 4) × ThinRight img.old (get_or path at 0) j (keys_down tier) }
    ensures { (s : ThinRight img.old (get_or path at 0) j (keys_down tier)) → PairMended img.new s.couple }
{
    let n = child_fill(img, path[at], j);
    if n <= tier.most_joined() {
        merge_pages(img, path, at, j, tier);
    } else {
        split_page(img, path, at, j, n - 1, tier);
        merge_pages(img, path, at, j + 1, tier);
    }
}

// The child of page `at` of the path on x's way may hold three: it is mended with the child on its right, or the last one with the child on its left.
pub fn mend_page(img: &mut [u32], path: [u32; 4], at: usize, x: u32, tier: Tier)
    requires { (at < 4) × Thin img.old (get_or path at 0) x (keys_down tier) }
    ensures { (s : Thin img.old (get_or path at 0) x (keys_down tier)) → Mended img.old img.new s.rs s.h s.lo s.hi s.o (fill (get_or path at 0) s.pre s.post s.child) }
{
    let q = path[at];
    let i = path::rank(img, q, x);
    let n = child_fill(img, q, i);
    let keys = pages::fill(img, q) as usize;
    if 4 <= n {
        return;
    }
    if i < keys {
        mend_left(img, path, at, i, tier);
    } else {
        mend_right(img, path, at, i - 1, tier);
    }
}
