// Splits of a leaf and of an inner page, as a save does them, and a delete where a page takes over from its neighbour: the child keeps its first entries or keys, the rest goes to a new page on its right,
// and the key between them comes into the page above with the list that is its own.
#![tactic(auto)]

ghost use Rattle.std.specs.Prelude.{ℕ, suc, ◌≤◌, ◌<◌, ◌-◌, ◌≡◌, ◌≢◌, length, get_or};
ghost use Rattle.pages.specs.Layout.{image_words, page_count};
ghost use Rattle.xrtree.specs.Rules.{key_between};
ghost use Rattle.image.specs.Read.{entry_at};
ghost use Rattle.steps.specs.Steps.{Split};
ghost use Rattle.split.specs.Stored.{Stored};
ghost use Rattle.split.specs.Ready.{LeafReady, InnerReady};

use pages::Page;

// The key between two leaves, by the last start on the left and the first on the right: right before the latter where there is a place between the two, so that fewer regions are stabbed.
fn key_between(last: u32, first: u32) -> u32
    requires { last < first }
    ensures { result ≡ key_between last first }
{
    if last < first - 1 {
        return first - 1;
    }
    first
}

// The key between entries c - 1 and c of a leaf.
fn cut_key(leaf: Page, c: usize) -> u32
    requires { (1 ≤ c) × (c < 9) × ((entry_at leaf (c - 1)).region.start < (entry_at leaf c).region.start) }
    ensures { result ≡ key_between (entry_at leaf (c - 1)).region.start (entry_at leaf c).region.start }
{
    key_between(
        pagewords::start_in(leaf, c - 1),
        pagewords::start_in(leaf, c),
    )
}

// The two parts of a page and the page above them.
fn store_split(img: &mut [u32], p: u32, left: Page, r: u32, right: Page, q: u32, above: Page)
    requires { (length img.old ≡ image_words) × (1 ≤ p) × (p ≤ page_count) × (1 ≤ r) × (r ≤ page_count) × (1 ≤ q) × (q ≤ page_count) × (p ≢ r) × (p ≢ q) × (r ≢ q) }
    ensures { Stored img.old img.new p left r right q above }
{
    store::store_page(img, p, left);
    store::store_page(img, r, right);
    store::store_page(img, q, above);
}

// Child i of page number `at` of the path, a leaf, keeps its first c entries; the rest goes to a new leaf on its right.
pub fn leaf(img: &mut [u32], path: [u32; 4], at: usize, i: usize, c: usize)
    requires { (at < 4) × LeafReady img.old (get_or path at 0) i c }
    ensures { (s : LeafReady img.old (get_or path at 0) i c) → Split img.old img.new 0 (get_or path at 0) i c s.child_at }
{
    let q = path[at];
    let page = store::load_page(img, q);
    let p = pagewords::child_in(page, i);
    let leaf = store::load_page(img, p);
    let r = store::first_free_page(img);
    let k = cut_key(leaf, c);
    let key = newkey::gather(img, leaf, c + 1, k);
    let ws = newkey::flagged(leaf, c + 1, k);
    let above = raising::enter_key(img, page, i, key, r);
    let left = newpages::leaf_left(ws, c, r);
    let right = newpages::leaf_right(ws, c);
    store_split(img, p, left, r, right, q, above);
}

// Likewise an inner page: it keeps its first c keys and c + 1 children; key c goes up, the rest goes to a new page on its right.
pub fn inner(img: &mut [u32], path: [u32; 4], at: usize, i: usize, c: usize)
    requires { (at < 4) × ((h : ℕ) × InnerReady img.old h (get_or path at 0) i c) }
    ensures { (h : ℕ) (s : InnerReady img.old h (get_or path at 0) i c) → Split img.old img.new (suc h) (get_or path at 0) i c s.child_at }
{
    let q = path[at];
    let page = store::load_page(img, q);
    let p = pagewords::child_in(page, i);
    let child = store::load_page(img, p);
    let r = store::first_free_page(img);
    let risen = raising::raise(img, child, c);
    let key = risen.key;
    let ws = risen.page;
    let above = raising::enter_key(img, page, i, key, r);
    let left = newpages::inner_left(ws, c);
    let right = newpages::inner_right(ws, c);
    store_split(img, p, left, r, right, q, above);
}
