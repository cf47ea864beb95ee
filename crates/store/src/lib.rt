// The writers of an image's words: a page, a part of one or a stab record at its place, a place given back, the header; and the search for a free place.
// These are the only stores into an image that save and delete make. An entry more and a key's new words are written where they stand; a page that is cut,
// joined or loses an entry is worked out by value (crate newpages) and stored whole.
#![tactic(auto)]

ghost use Rattle.std.specs.Prelude.{◌≡◌, ◌+◌, ◌<◌, ◌≤◌, length};
ghost use Rattle.pages.specs.Layout.{page_of, page_used, record_used, image_words, page_count, record_count};
ghost use Rattle.pagewords.specs.Words.{copied_in};
ghost use Rattle.store.specs.Store.{put_page, free_page, put_entry_at, put_key_at, set_fill, put_record, set_next, free_record, set_root, set_height, FirstFree};

use pages::{KeyWords, Page};
use regions::Region;

// The 57 words of page p, by value.
pub fn load_page(img: &[u32], p: u32) -> Page
    requires img_len { length img.now ≡ image_words }
    requires le_p { (1 ≤ p) × (p ≤ page_count) }
    ensures { result ≡ page_of img.now p }
{
    let b = pages::page_at(p);
    let mut ws = [0u32; pages::PAGE_WIDTH];
    ws.copy_from_slice(&img[b..b + pages::PAGE_WIDTH]);
    ws
}

// All 57 words of page p.
pub fn store_page(img: &mut [u32], p: u32, ws: Page)
    requires img_len { length img.old ≡ image_words }
    requires le_p { (1 ≤ p) × (p ≤ page_count) }
    ensures { img.new ≡ put_page img.old p ws }
{
    let b = pages::page_at(p);
    img[b..b + pages::PAGE_WIDTH].copy_from_slice(&ws);
}

// Gives page p back: only its mark says that it is in use.
pub fn free_page(img: &mut [u32], p: u32)
    requires img_len { length img.old ≡ image_words }
    requires le_p { (1 ≤ p) × (p ≤ page_count) }
    ensures { img.new ≡ free_page img.old p }
{
    img[pages::page_at(p)] = 0;
}

// Moves n words, from word b on, up by k words. Where the two runs overlap, a word is read before another is written over it.
pub fn move_up(img: &mut [u32], b: usize, n: usize, k: usize)
    requires img_len { length img.old ≡ image_words }
    requires n_bound { b + k + n ≤ image_words }
    ensures { img.new ≡ copied_in img.old (b + k) img.old b n }
{
    img.copy_within(b..b + n, b + k);
}

// The six words of entry i of leaf p; the sixth, spare, is 0.
pub fn put_entry(img: &mut [u32], p: u32, i: usize, r: Region, flag: u32)
    requires img_len { length img.old ≡ image_words }
    requires le_p { (1 ≤ p) × (p ≤ page_count) × (i < 9) }
    ensures { img.new ≡ put_entry_at img.old p i r flag }
{
    let b = pages::page_at(p) + pages::entry_word(i);
    img[b] = r.start;
    img[b + 1] = r.end;
    img[b + 2] = r.level;
    img[b + 3] = r.reference;
    img[b + 4] = flag;
    img[b + 5] = 0;
}

// The four words of key i of inner page p.
pub fn put_key(img: &mut [u32], p: u32, i: usize, k: KeyWords)
    requires img_len { length img.old ≡ image_words }
    requires le_p { (1 ≤ p) × (p ≤ page_count) × (i < 9) }
    ensures { img.new ≡ put_key_at img.old p i k }
{
    let b = pages::page_at(p) + pages::key_word(i);
    img[b] = k.key;
    img[b + 1] = k.start;
    img[b + 2] = k.end;
    img[b + 3] = k.head;
}

// How many entries or keys page p has.
pub fn set_fill(img: &mut [u32], p: u32, n: u32)
    requires img_len { length img.old ≡ image_words }
    requires le_p { (1 ≤ p) × (p ≤ page_count) }
    ensures { img.new ≡ set_fill img.old p n }
{
    img[pages::page_at(p) + 1] = n;
}

// Stab record q: a region, and the record behind it in its list.
pub fn put_record(img: &mut [u32], q: u32, r: Region, next: u32)
    requires img_len { length img.old ≡ image_words }
    requires le_q { (1 ≤ q) × (q ≤ record_count) }
    ensures { img.new ≡ put_record img.old q r next }
{
    let b = pages::record_at(q);
    img[b] = r.start;
    img[b + 1] = r.end;
    img[b + 2] = r.level;
    img[b + 3] = r.reference;
    img[b + 4] = next;
}

// Links another record behind q.
pub fn set_next(img: &mut [u32], q: u32, next: u32)
    requires img_len { length img.old ≡ image_words }
    requires le_q { (1 ≤ q) × (q ≤ record_count) }
    ensures { img.new ≡ set_next img.old q next }
{
    img[pages::record_at(q) + 4] = next;
}

// Gives record q back: no region ends at 0, so that end says it.
pub fn free_record(img: &mut [u32], q: u32)
    requires img_len { length img.old ≡ image_words }
    requires le_q { (1 ≤ q) × (q ≤ record_count) }
    ensures { img.new ≡ free_record img.old q }
{
    img[pages::record_at(q) + 1] = 0;
}

pub fn set_root(img: &mut [u32], p: u32)
    requires { length img.old ≡ image_words }
    ensures { img.new ≡ set_root img.old p }
{
    img[0] = p;
}

pub fn set_height(img: &mut [u32], h: u32)
    requires { length img.old ≡ image_words }
    ensures { img.new ≡ set_height img.old h }
{
    img[1] = h;
}

// The first free page, 0 where none is free. No page has that number, and an image's links say none by it too; who calls knows that one is free, so an Option would only be unwrapped.
pub fn first_free_page(img: &[u32]) -> u32
    ensures { FirstFree (page_used img.now) page_count result }
{
    for p in 1..=pages::PAGE_COUNT {
        if pages::mark(img, p) == 0 {
            return p;
        }
    }
    0
}

// The first free stab record, 0 where none is free: likewise.
pub fn first_free_record(img: &[u32]) -> u32
    ensures { FirstFree (record_used img.now) record_count result }
{
    for q in 1..=pages::RECORD_COUNT {
        if pages::record_end(img, q) == 0 {
            return q;
        }
    }
    0
}
