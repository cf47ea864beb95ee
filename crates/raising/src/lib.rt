// Lists that a split moves: what the middle key of an inner page takes from the keys left of it as it rises, and what a key takes from the next one where it enters a page.
#![tactic(auto)]

ghost use Rattle.std.specs.Prelude.{◌≡◌, ℕ, ◌≤◌, ◌<◌, length};
ghost use Rattle.pages.specs.Layout.{fill_of, image_words};
ghost use Rattle.raising.specs.Moves.{RaiseReady, Raised, EnterReady, Entered};

use pages::{KeyWords, Page};

// An inner page whose middle key has all that it stabs, and that key.
#[derive(Clone, Copy)]
pub struct Risen {
    pub page: Page,
    pub key: KeyWords,
}

// Key c of a page with all that it stabs of the lists on its left, from the last to the first, so that each goes in front.
pub fn raise(img: &mut [u32], page: Page, c: usize) -> Risen
    requires img_len { (length img.old ≡ image_words) × (fill_of page ≤ 9) × (c < fill_of page) }
    requires by_index { (h : ℕ) × RaiseReady img.old page c h }
    ensures { (h : ℕ) (g : RaiseReady img.old page c h) → Raised img.old img.new page c h g result }
{
    let mut key = pagewords::key_in(page, c);
    let x = key.key;
    let mut ws = page;
    for j in (0..c).rev() {
        let from = pagewords::key_in(page, j);
        let l = records::lift(img, from, key, x);
        let gave = l.from;
        let s = newpages::set_key(ws, j, gave);
        ws = s;
        key = l.to;
    }
    Risen { page: ws, key }
}

// A key into a page as key i, with the page r on its right; the key behind it gives it what it stabs.
pub fn enter_key(img: &mut [u32], page: Page, i: usize, k: KeyWords, r: u32) -> Page
    requires img_len { (length img.old ≡ image_words) × (fill_of page ≤ 8) × (i ≤ fill_of page) }
    requires by_index { (h : ℕ) × EnterReady img.old page i k h }
    ensures { (h : ℕ) (g : EnterReady img.old page i k h) → Entered img.old img.new page i k r h g result }
{
    if i < page[1] as usize {
        let next = pagewords::key_in(page, i);
        let l = records::lift(img, next, k, k.key);
        let gave = l.from;
        let took = l.to;
        let cut = newpages::set_key(page, i, gave);
        return newpages::inner_with(cut, i, took, r);
    }
    newpages::inner_with(page, i, k, r)
}
