// What the new key of a leaf's split takes of the leaf: the list of what it stabs, and the flags that say so.
#![tactic(auto)]

ghost use Rattle.std.specs.Prelude.{◌≡◌, ◌≤◌, ◌<◌};
ghost use Rattle.pages.specs.Layout.{fill_of};
ghost use Rattle.image.specs.Read.{entry_at, entries_from};
ghost use Rattle.newkey.specs.Moves.{fresh_at, Gathered, Flagged, GatherReady};

use pages::{KeyWords, Page};

// Whether entry j is in no list and k stabs it.
fn is_fresh(ws: Page, j: usize, k: u32) -> bool
    requires { j < 9 }
    ensures { result ≡ fresh_at k (entry_at ws j) }
{
    pagewords::flag_in(ws, j) == 0 && regions::stabs(k, pagewords::entry_in(ws, j))
}

// Of the first n entries, those in no list that k stabs come into k's list: from the last to the first, so that each goes in front.
pub fn gather(img: &mut [u32], leaf: Page, n: usize, k: u32) -> KeyWords
    requires { GatherReady img.old leaf n k }
    ensures { Gathered img.old img.new k (entries_from leaf 0 n) result }
{
    let mut key = KeyWords {
        key: k,
        start: 0,
        end: 0,
        head: 0,
    };
    for j in (0..n).rev() {
        if is_fresh(leaf, j, k) {
            let r = pagewords::entry_in(leaf, j);
            key = records::push(img, key, r);
        }
    }
    key
}

// The flags of the first n entries, now that k is a key.
pub fn flagged(leaf: Page, n: usize, k: u32) -> Page
    requires { (fill_of leaf ≤ 9) × (n ≤ fill_of leaf) }
    ensures { Flagged leaf n k result }
{
    let mut ws = leaf;
    for j in 0..n {
        let r = pagewords::entry_in(leaf, j);
        if regions::stabs(k, r) {
            let s = newpages::set_flag(ws, j, 1);
            ws = s;
        }
    }
    ws
}
