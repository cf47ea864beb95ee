// What save and delete read of a page by value, and what they do to it: 57 words in, 57 words out. No image is touched here.
#![tactic(auto)]

ghost use Rattle.std.specs.Prelude.{[], ◌∷◌, ◌++◌, suc, ◌+◌, ◌-◌, ◌<◌, ◌≤◌, take, drop};
ghost use Rattle.pages.specs.Layout.{mark_of, fill_of, next_of};
ghost use Rattle.newpages.specs.Pages.{put_in, taken_out, put_for, flagged_entry, entries_of, spares_of, keys_of, children_of, IsLeaf, IsInner};

use pages::{KeyWords, Page};

// A leaf without its entry i.
pub fn leaf_without(ws: Page, i: usize) -> Page
    requires { (fill_of ws ≤ 9) × (i < fill_of ws) }
    ensures { IsLeaf result (mark_of ws) (fill_of ws - 1) (next_of ws) (taken_out i (entries_of ws)) (taken_out i (spares_of ws)) }
{
    let m = ws[1] as usize - (i + 1);
    let a = pages::entry_word(i);
    let moved = pagewords::copied(ws, a, ws, a + pages::ENTRY_WIDTH, pages::ENTRY_WIDTH * m);
    pagewords::headed(moved, ws[0], ws[1] - 1, ws[2])
}

// The left part of a leaf that is cut: its first c entries, before the leaf `next`.
pub fn leaf_left(ws: Page, c: usize, next: u32) -> Page
    requires { (fill_of ws ≤ 9) × (c ≤ fill_of ws) }
    ensures { IsLeaf result (mark_of ws) c next (take c (entries_of ws)) (take c (spares_of ws)) }
{
    pagewords::headed(ws, ws[0], c as u32, next)
}

// The right part of a leaf that is cut: its entries from c on. The page is a new one, so it is marked.
pub fn leaf_right(ws: Page, c: usize) -> Page
    requires { (fill_of ws ≤ 9) × (c ≤ fill_of ws) }
    ensures { IsLeaf result 1 (fill_of ws - c) (next_of ws) (drop c (entries_of ws)) (drop c (spares_of ws)) }
{
    let m = ws[1] as usize - c;
    let a = pages::entry_word(c);
    let moved = pagewords::copied(ws, pages::HEAD_WIDTH, ws, a, pages::ENTRY_WIDTH * m);
    pagewords::headed(moved, 1, m as u32, ws[2])
}

// Two neighbouring leaves as one.
pub fn leaf_joined(left: Page, right: Page) -> Page
    requires { fill_of left + fill_of right ≤ 9 }
    ensures { IsLeaf result (mark_of left) (fill_of left + fill_of right) (next_of right) (entries_of left ++ entries_of right) (spares_of left ++ spares_of right) }
{
    let a = pages::entry_word(left[1] as usize);
    let n = right[1] as usize;
    let moved = pagewords::copied(left, a, right, pages::HEAD_WIDTH, pages::ENTRY_WIDTH * n);
    pagewords::headed(moved, left[0], left[1] + right[1], right[2])
}

// A leaf whose entry i has another flag.
pub fn set_flag(mut ws: Page, i: usize, flag: u32) -> Page
    requires { (fill_of ws ≤ 9) × (i < fill_of ws) }
    ensures { IsLeaf result (mark_of ws) (fill_of ws) (next_of ws) (put_for i (flagged_entry ws i flag) (entries_of ws)) (spares_of ws) }
{
    ws[pages::entry_word(i) + 4] = flag;
    ws
}

// An inner page with one key more, as key i, and one child more on its right.
pub fn inner_with(ws: Page, i: usize, k: KeyWords, child: u32) -> Page
    requires { (fill_of ws ≤ 8) × (i ≤ fill_of ws) }
    ensures { IsInner result (mark_of ws) (suc (fill_of ws)) (next_of ws) (put_in i k (keys_of ws)) (put_in (suc i) child (children_of ws)) }
{
    let n = ws[1] as usize;
    let a = pages::key_word(i);
    let put = pagewords::put_key(ws, a, k);
    let mut keyed = pagewords::copied(put, a + pages::KEY_WIDTH, ws, a, pages::KEY_WIDTH * (n - i));
    let b = pages::child_word(i + 1);
    keyed[b] = child;
    let moved = pagewords::copied(keyed, b + 1, ws, b, n - i);
    pagewords::headed(moved, ws[0], ws[1] + 1, ws[2])
}

// An inner page without its key i and the child on that key's right.
pub fn inner_without(ws: Page, i: usize) -> Page
    requires { (fill_of ws ≤ 9) × (i < fill_of ws) }
    ensures { IsInner result (mark_of ws) (fill_of ws - 1) (next_of ws) (taken_out i (keys_of ws)) (taken_out (suc i) (children_of ws)) }
{
    let m = ws[1] as usize - (i + 1);
    let a = pages::key_word(i);
    let keyed = pagewords::copied(ws, a, ws, a + pages::KEY_WIDTH, pages::KEY_WIDTH * m);
    let b = pages::child_word(i + 1);
    let moved = pagewords::copied(keyed, b, ws, b + 1, m);
    pagewords::headed(moved, ws[0], ws[1] - 1, ws[2])
}

// The left part of an inner page that is cut at key c: the first c keys.
pub fn inner_left(ws: Page, c: usize) -> Page
    requires { (fill_of ws ≤ 9) × (c ≤ fill_of ws) }
    ensures { IsInner result (mark_of ws) c (next_of ws) (take c (keys_of ws)) (take (suc c) (children_of ws)) }
{
    pagewords::headed(ws, ws[0], c as u32, ws[2])
}

// The right part: the keys behind key c, which goes up. The page is a new one, so it is marked.
pub fn inner_right(ws: Page, c: usize) -> Page
    requires { (fill_of ws ≤ 9) × (c < fill_of ws) }
    ensures { IsInner result 1 (fill_of ws - suc c) (next_of ws) (drop (suc c) (keys_of ws)) (drop (suc c) (children_of ws)) }
{
    let m = ws[1] as usize - (c + 1);
    let a = pages::key_word(c + 1);
    let keyed = pagewords::copied(ws, pages::HEAD_WIDTH, ws, a, pages::KEY_WIDTH * m);
    let b = pages::child_word(c + 1);
    let moved = pagewords::copied(keyed, pages::FIRST_CHILD, ws, b, m + 1);
    pagewords::headed(moved, 1, m as u32, ws[2])
}

// Two neighbouring inner pages as one, with the key that stood between them.
pub fn inner_joined(left: Page, k: KeyWords, right: Page) -> Page
    requires { fill_of left + fill_of right ≤ 8 }
    ensures { IsInner result (mark_of left) (suc (fill_of left + fill_of right)) (next_of left) (keys_of left ++ k ∷ keys_of right) (children_of left ++ children_of right) }
{
    let m = left[1] as usize;
    let n = right[1] as usize;
    let a = pages::key_word(m);
    let put = pagewords::put_key(left, a, k);
    let keyed = pagewords::copied(
        put,
        a + pages::KEY_WIDTH,
        right,
        pages::HEAD_WIDTH,
        pages::KEY_WIDTH * n,
    );
    let b = pages::child_word(m + 1);
    let moved = pagewords::copied(keyed, b, right, pages::FIRST_CHILD, n + 1);
    pagewords::headed(moved, left[0], left[1] + right[1] + 1, left[2])
}

// An inner page with another key i: its children stay.
pub fn set_key(ws: Page, i: usize, k: KeyWords) -> Page
    requires { (fill_of ws ≤ 9) × (i < fill_of ws) }
    ensures { IsInner result (mark_of ws) (fill_of ws) (next_of ws) (put_for i k (keys_of ws)) (children_of ws) }
{
    pagewords::put_key(ws, pages::key_word(i), k)
}

// A root above one child: it has no key yet.
pub fn inner_single(child: u32) -> Page
    ensures { IsInner result 1 0 0 [] (child ∷ []) }
{
    let mut ws = [0u32; pages::PAGE_WIDTH];
    ws[0] = 1;
    ws[pages::FIRST_CHILD] = child;
    ws
}
