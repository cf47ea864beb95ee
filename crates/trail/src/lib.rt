// A stab list followed record by record along the regions that belong in it, as they are met in the tree from left to right.
#![tactic(auto)]

ghost use Rattle.std.specs.Prelude.{◌≡◌};
ghost use Rattle.trail.specs.Pass.{is_home, step, meet, follow, regions_at, Fills, begun, ended};

use regions::Region;

// How far the test has come: the record that must come next (0 where the list has ended), and how many of the used records are still to be met.
// Each record met takes one, so that a hostile list ends. Where a test fails there is no trail any more.
#[derive(Clone, Copy)]
pub struct Trail {
    pub at: u32,
    pub left: usize,
}

// Where a key's list is at home: its regions start from low on and at the key at the latest, and end at the key or behind it, before high.
#[derive(Clone, Copy)]
pub struct Home {
    pub low: usize,
    pub key: usize,
    pub high: usize,
}

// Whether the region belongs into the key's list: the key stabs it, no earlier key of its page does, and no key of a page above.
fn at_home(home: Home, r: Region) -> bool
    ensures { result ≡ is_home home r }
{
    let start = r.start as usize;
    let end = r.end as usize;
    home.low <= start && start <= home.key && home.key <= end && end < home.high
}

// The record that must come next is this region's own: it has the region as the leaf has it, with level and reference.
fn take_record(img: &[u32], r: Region, t: Trail) -> Option<Trail>
    ensures { result ≡ step img.now r t }
{
    if t.at < 1
        || pages::RECORD_COUNT < t.at
        || t.left < 1
        || pages::record_region(img, t.at) != r
    {
        return None;
    }
    Some(Trail {
        at: pages::record_next(img, t.at),
        left: t.left - 1,
    })
}

// A region of the set, in ascending start: if it is at home it must come next in the list.
pub fn meet_region(img: &[u32], home: Home, r: Region, t: Trail) -> Option<Trail>
    ensures { result ≡ meet img.now home r t }
{
    if at_home(home, r) {
        take_record(img, r, t)
    } else {
        Some(t)
    }
}

// The regions of a leaf, each of which may be the one that must come next.
fn meet_leaf(img: &[u32], home: Home, p: u32, t: Trail) -> Option<Trail>
    requires { Fills 0 img.now p }
    ensures { result ≡ follow img.now home (regions_at img.now 0 p) t }
{
    let n = pages::fill(img, p) as usize;
    let mut s = t;
    for i in 0..n {
        s = meet_region(img, home, pages::entry_region(img, p, i), s)?;
    }
    Some(s)
}

// The regions below a page whose leaves lie so many pages deeper.
pub fn meet_tree(img: &[u32], depth: usize, home: Home, p: u32, t: Trail) -> Option<Trail>
    requires { Fills depth img.now p }
    ensures { result ≡ follow img.now home (regions_at img.now depth p) t }
{
    if depth == 0 {
        return meet_leaf(img, home, p, t);
    }
    let n = pages::fill(img, p) as usize;
    let mut s = t;
    for i in 0..=n {
        s = meet_tree(img, depth - 1, home, pages::child(img, p, i), s)?;
    }
    Some(s)
}

// A list begins, at the record that its key names.
pub fn begin_list(t: Trail, head: u32) -> Trail
    ensures { result ≡ begun head t }
{
    Trail { at: head, ..t }
}

// A list must have ended where its regions have.
pub fn end_list(t: Trail) -> Option<Trail>
    ensures { result ≡ ended t }
{
    (t.at == 0).then_some(t)
}
