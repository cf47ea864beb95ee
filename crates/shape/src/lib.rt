// Decides the first part of an image's validity, its shape: size, fills, links between leaves, order of starts and keys, and that each place of a page
// is either met once on the walk or marked as unused. The tree is walked from left to right; no place is trusted before it was tested.
#![tactic(auto)]

ghost use Rattle.std.specs.Prelude.{◌≡◌, ◌≤◌};
ghost use Rattle.pages.specs.Layout.{page_of, fill_of, page_count};
ghost use Rattle.image.specs.Shape.{shapely};
ghost use Rattle.shape.specs.Run.{run, page_right, start_events, leaf_events, events_at, used_to};

use passes::Passed;

// Past the n starts of the leaf at a place.
fn pass_starts(img: &[u32], place: u32, n: usize, s: Passed) -> Option<Passed>
    requires { n ≤ 8 }
    ensures { result ≡ run (start_events (page_of img.now place) 0 n) s }
{
    let mut t = s;
    for i in 0..n {
        t = t.code(2 * pages::entry_start(img, place, i) as usize + 1)?;
    }
    Some(t)
}

// Past the leaf at a place, after its page was tested.
fn pass_entries(img: &[u32], place: u32, s: Passed) -> Option<Passed>
    requires { fill_of (page_of img.now place) ≤ 8 }
    ensures { result ≡ run (leaf_events (page_of img.now place) place) s }
{
    let t = s.leaf(place, pages::next_leaf(img, place))?;
    pass_starts(img, place, pages::fill(img, place) as usize, t)
}

// Whether the page is in range, in use, and rightly filled. (What more it holds may be read only then.)
fn page_right(img: &[u32], least: u32, place: u32) -> bool
    ensures { result ≡ page_right img.now least place }
{
    if place < 1 || pages::PAGE_COUNT < place || pages::mark(img, place) == 0 {
        return false;
    }
    let n = pages::fill(img, place);
    least <= n && n <= 8
}

// Past the tree at a place whose leaves lie `level` pages deeper and whose root holds at least `least`.
fn pass_tree(img: &[u32], level: usize, least: u32, place: u32, s: Passed) -> Option<Passed>
    ensures { result ≡ run (events_at img.now level least place) s }
{
    let p = s.page(page_right(img, least, place))?;
    if level == 0 {
        return pass_entries(img, place, p);
    }
    let n = pages::fill(img, place) as usize;
    let mut t = p;
    for i in 0..n {
        let u = pass_tree(img, level - 1, 4, pages::child(img, place, i), t)?;
        t = u.code(2 * pages::key_number(img, place, i) as usize)?;
    }
    pass_tree(img, level - 1, 4, pages::child(img, place, n), t)
}

// How many pages are in use.
fn used_pages(img: &[u32]) -> usize
    ensures { result ≡ used_to img.now page_count }
{
    let mut n: usize = 0;
    for p in 1..=pages::PAGE_COUNT {
        if pages::mark(img, p) != 0 {
            n += 1;
        }
    }
    n
}

// Whether an image has its size and its tree the right shape: exactly `shapely`, of any words.
pub fn shaped(img: &[u32]) -> bool
    ensures { result ≡ shapely img.now }
{
    if img.len() != pages::IMAGE_WORDS {
        return false;
    }
    let height = words::wide_word(img, 1);
    if height < 1 || 4 < height {
        return false;
    }
    let least = if height == 1 { 0 } else { 1 };
    let s = Passed {
        link: 0,
        low: 0,
        left: used_pages(img),
    };
    pass_tree(img, height - 1, least, words::word(img, 0), s).is_some_and(Passed::is_finished)
}
