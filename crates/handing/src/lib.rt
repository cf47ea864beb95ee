// Lists that a merge moves: a key that leaves its page hands its list on to the next key, and one that comes down gives each key left of it what that stabs; what no key stabs is in no list any more.
#![tactic(auto)]

ghost use Rattle.std.specs.Prelude.{◌≡◌, map, ◌≤◌, length};
ghost use Rattle.pages.specs.Layout.{mark_of, fill_of, next_of, image_words};
ghost use Rattle.image.specs.Read.{record_region, list_places};
ghost use Rattle.xrtree.specs.Moves.{any_start, clear};
ghost use Rattle.newpages.specs.Pages.{IsLeaf, entries_of, spares_of};
ghost use Rattle.records.specs.Touched.{Ends};
ghost use Rattle.handing.specs.Moves.{Leaving, HandedOn, Sinking, Sank};

use pages::{KeyWords, Page};

// A page with lists changed, and what is left of the key whose list was handed out.
#[derive(Clone, Copy)]
pub struct Handed {
    pub rest: KeyWords,
    pub page: Page,
}

// Takes key j and the child on its right out of a page. What the next key stabs of the key's list is that key's now, or no search would find it.
pub fn hand_on(img: &mut [u32], ws: Page, j: usize) -> Handed
    requires { (length img.old ≡ image_words) × (fill_of ws ≤ 9) × Leaving img.old ws j }
    ensures { (s : Leaving img.old ws j) → HandedOn img.old img.new ws j s result }
{
    let key = pagewords::key_in(ws, j);
    let without = newpages::inner_without(ws, j);
    if j + 1 == ws[1] as usize {
        return Handed {
            rest: key,
            page: without,
        };
    }
    let next = pagewords::key_in(ws, j + 1);
    let lifted = records::lift(img, key, next, next.key);
    let rest = lifted.from;
    let took = lifted.to;
    let page = newpages::set_key(without, j, took);
    Handed { rest, page }
}

// Does a list hold a region with that start.
fn in_list(img: &[u32], head: u32, start: u32) -> bool
    requires { Ends img.now head }
    ensures { result ≡ any_start start (map (record_region img.now) (list_places img.now head)) }
{
    let mut q = head;
    // A walk by links: there is no index to count.
    while q != 0 {
        let r = pages::record_region(img, q);
        if r.start == start {
            return true;
        }
        q = pages::record_next(img, q);
    }
    false
}

// A leaf whose entries in the list from `head` on get flag 0: that list is given up.
pub fn clear_flags(img: &[u32], leaf: Page, head: u32) -> Page
    requires { (fill_of leaf ≤ 9) × Ends img.now head }
    ensures { IsLeaf result (mark_of leaf) (fill_of leaf) (next_of leaf) (map (clear (map (record_region img.now) (list_places img.now head))) (entries_of leaf)) (spares_of leaf) }
{
    let n = leaf[1] as usize;
    let mut ws = leaf;
    for i in 0..n {
        if in_list(img, head, pagewords::start_in(ws, i)) {
            let cleared = newpages::set_flag(ws, i, 0);
            ws = cleared;
        }
    }
    ws
}

// The key k comes down beside a page: each key of the page, first to last, takes what it stabs of k's list.
pub fn sink(img: &mut [u32], ws: Page, k: KeyWords) -> Handed
    requires { (length img.old ≡ image_words) × (fill_of ws ≤ 9) × Sinking img.old ws k }
    ensures { (s : Sinking img.old ws k) → Sank img.old img.new ws k s result }
{
    let n = ws[1] as usize;
    let mut page = ws;
    let mut rest = k;
    for i in 0..n {
        let to = pagewords::key_in(page, i);
        let lifted = records::lift(img, rest, to, to.key);
        let took = lifted.to;
        let keyed = newpages::set_key(page, i, took);
        page = keyed;
        rest = lifted.from;
    }
    Handed { rest, page }
}
