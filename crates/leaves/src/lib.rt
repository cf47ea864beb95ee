// The entries of a set in order, along the leaves' links: a cursor by value, whose step hands the entry and the cursor moved on.
#![tactic(auto)]

ghost use Rattle.std.specs.Prelude.{◌≡◌, suc, ◌<◌, ◌≤◌, T};
ghost use Rattle.words.specs.Lists.{filter};
ghost use Rattle.regions.specs.Positions.{too_late};
ghost use Rattle.regions.specs.Sets.{starts_from};
ghost use Rattle.pages.specs.Layout.{page_of, fill_of};
ghost use Rattle.image.specs.Read.{set_of};
ghost use Rattle.image.specs.Valid.{valid};
ghost use Rattle.path.specs.Path.{path_of, padded};
ghost use Rattle.leaves.specs.Cursors.{entry_rank, cursor_at, step_from, start_faced};
ghost use Rattle.leaves.specs.Faces.{Faces};

use regions::{Choice, Region};

// A leaf's entry: the region, and whether it stands in a stab list.
#[derive(Clone, Copy)]
pub struct Entry {
    pub region: Region,
    pub flag: u32,
}

// Where a walk along the leaves stands: at entry `at` of a leaf, or at the end, which is leaf 0.
#[derive(Clone, Copy)]
pub struct Cursor {
    pub leaf: u32,
    pub at: u32,
}

impl Cursor {
    // The entry that the cursor stands at, with the cursor moved on; at the end there is none.
    pub fn step(self, img: &[u32]) -> Option<(Entry, Cursor)>
        requires { self.at < 9 }
        ensures { result ≡ step_from img.now self }
    {
        if self.leaf == 0 {
            return None;
        }
        let i = self.at as usize;
        let region = pages::entry_region(img, self.leaf, i);
        let flag = pages::entry_flag(img, self.leaf, i);
        let on = cursor_at(img, self.leaf, self.at + 1);
        Some((Entry { region, flag }, on))
    }

    // The start of the entry that the cursor stands at; at the end, the last position of all.
    pub fn start(self, img: &[u32]) -> u32
        requires { self.at < 9 }
        ensures { result ≡ start_faced (step_from img.now self) }
    {
        if self.leaf == 0 {
            return u32::MAX;
        }
        pages::entry_start(img, self.leaf, self.at as usize)
    }
}

// The cursor at entry `at` of a leaf, or behind its last entry at the first of the leaf on the right.
fn cursor_at(img: &[u32], leaf: u32, at: u32) -> Cursor
    ensures { result ≡ cursor_at img.now leaf at }
{
    if at < pages::fill(img, leaf) {
        Cursor { leaf, at }
    } else {
        Cursor {
            leaf: pages::next_leaf(img, leaf),
            at: 0,
        }
    }
}

// How many entries of a leaf start early enough to hold x.
fn entry_rank(img: &[u32], leaf: u32, choice: Choice, x: u32) -> u32
    requires { fill_of (page_of img.now leaf) ≤ 8 }
    ensures { result ≡ entry_rank img.now leaf (too_late choice x) }
{
    let n = pages::fill(img, leaf);
    for i in 0..n {
        if !regions::in_time(choice, x, pages::entry_start(img, leaf, i as usize)) {
            return i;
        }
    }
    n
}

// THE CURSOR at the first entry that starts too late to hold x, which strictly is at x or behind it and with self behind it, for those who have x's path: in the leaf
// where x belongs, else the next leaf's first.
pub fn seek_along(img: &[u32], way: [u32; 4], choice: Choice, x: u32) -> Cursor
    requires img_valid { T (valid img.now) }
    requires way_value { way ≡ padded (path_of img.now x) }
    ensures { Faces img.now result (filter (starts_from (too_late choice x)) (set_of img.now).regions) }
{
    let leaf = way[path::depth(img)];
    cursor_at(img, leaf, entry_rank(img, leaf, choice, x))
}

// The cursor at the first entry that starts behind x.
pub fn seek(img: &[u32], x: u32) -> Cursor
    requires { T (valid img.now) }
    ensures { Faces img.now result (filter (starts_from (suc x)) (set_of img.now).regions) }
{
    seek_along(img, path::descend(img, x), Choice::WithSelf, x)
}

// The cursor at the first entry that starts at y or behind it.
pub fn seek_from(img: &[u32], y: u32) -> Cursor
    requires { T (valid img.now) }
    ensures { Faces img.now result (filter (starts_from y) (set_of img.now).regions) }
{
    seek_along(img, path::descend(img, y), Choice::Strict, y)
}
