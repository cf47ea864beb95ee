// Merges of two neighbouring children of a page, leaves or inner pages, with the stab lists that this changes.
// Pages are worked out by value and stored at the end; before that only words of stab records are written.
#![tactic(auto)]

ghost use Rattle.std.specs.Prelude.{◌≡◌, ℕ, suc, ◌<◌, ◌≤◌, length, get_or};
ghost use Rattle.pages.specs.Layout.{image_words, page_count};
ghost use Rattle.store.specs.Store.{put_page, free_page};
ghost use Rattle.steps.specs.Steps.{PairAt, Merged};
ghost use Rattle.merge.specs.Moves.{LeavesFit, InnersFit};

use pages::Page;

// The stores of a merge: the joined page at the left one's place, the page above without their key, and the right one's place given back.
fn store_merged(img: &mut [u32], left: u32, joined: Page, q: u32, above: Page, right: u32)
    requires img_len { length img.old ≡ image_words }
    requires le_left { (1 ≤ left) × (left ≤ page_count) × (1 ≤ q) × (q ≤ page_count) × (1 ≤ right) × (right ≤ page_count) }
    ensures { img.new ≡ free_page (put_page (put_page img.old left joined) q above) right }
{
    store::store_page(img, left, joined);
    store::store_page(img, q, above);
    store::free_page(img, right);
}

// Children j and j + 1 of page number `at` of a path, leaves, become one; the key between them goes. What the next key does not take of its list is in no list any more.
pub fn leaves(img: &mut [u32], path: [u32; 4], at: usize, j: usize)
    requires { (at < 4) × LeavesFit img.old (get_or path at 0) j }
    ensures { (s : PairAt img.old 0 (get_or path at 0) j) → Merged img.old img.new 0 (get_or path at 0) j s }
{
    let q = path[at];
    let page = store::load_page(img, q);
    let left = pagewords::child_in(page, j);
    let right = pagewords::child_in(page, j + 1);
    let a = store::load_page(img, left);
    let b = store::load_page(img, right);
    let joined = newpages::leaf_joined(a, b);
    let handed = handing::hand_on(img, page, j);
    let rest = handed.rest;
    let above = handed.page;
    let leaf = handing::clear_flags(img, joined, rest.head);
    records::drop_list(img, rest.head);
    store_merged(img, left, leaf, q, above, right);
}

// Inner pages likewise: the key between them comes down, with what no key above or on its left takes of its list.
pub fn inners(img: &mut [u32], path: [u32; 4], at: usize, j: usize)
    requires { (at < 4) × InnersFit img.old (get_or path at 0) j }
    ensures { (h : ℕ) (s : PairAt img.old (suc h) (get_or path at 0) j) → Merged img.old img.new (suc h) (get_or path at 0) j s }
{
    let q = path[at];
    let page = store::load_page(img, q);
    let left = pagewords::child_in(page, j);
    let right = pagewords::child_in(page, j + 1);
    let a = store::load_page(img, left);
    let b = store::load_page(img, right);
    let handed = handing::hand_on(img, page, j);
    let rest = handed.rest;
    let above = handed.page;
    let sunk = handing::sink(img, a, rest);
    let key = sunk.rest;
    let lower = sunk.page;
    let joined = newpages::inner_joined(lower, key, b);
    store_merged(img, left, joined, q, above, right);
}
