// The words of an image: where pages and stab records begin, and readers of them, each equal to the layout's definition. Past the image's end every word is 0,
// so that a place of any number can be followed.
#![tactic(auto)]

ghost use Rattle.std.specs.Prelude.{◌≡◌, ◌+◌, ◌<◌, ◌≤◌, get_or};
ghost use Rattle.pages.specs.Layout.{page_of, record_of, mark_of, fill_of, next_of, region_in, flag_in, child_in, record_next, record_end, page_width, record_width, page_word, entry_word, key_word, child_word, record_word};

use regions::Region;

// The layout's numbers, as specs/Layout has them: an image and a page in words, how many pages and stab records there are,
pub const IMAGE_WORDS: usize = 12288;

pub const PAGE_WIDTH: usize = 57;

pub const PAGE_COUNT: u32 = 160;

pub const RECORD_COUNT: u32 = 500;
// and of a page's words the head, an entry, a key, the first child; of a record's, all, and the words before record 0.
pub const HEAD_WIDTH: usize = 3;

pub const ENTRY_WIDTH: usize = 6;

pub const KEY_WIDTH: usize = 4;

pub const FIRST_CHILD: usize = 39;

pub const RECORD_WIDTH: usize = 6;

pub const RECORD_BASE: usize = 9177;

// A page by value.
pub type Page = [u32; 57];

// A key of an inner page: the key, its stored pair, the head of its list.
#[derive(Clone, Copy)]
pub struct KeyWords {
    pub key: u32,
    pub start: u32,
    pub end: u32,
    pub head: u32,
}

// The word of the image with which page p begins: it fits for a place of any number.
pub fn page_at(p: u32) -> usize
    ensures { result ≡ page_word p }
{
    PAGE_WIDTH * p as usize
}

// Likewise stab record q.
pub fn record_at(q: u32) -> usize
    ensures { result ≡ record_word q }
{
    RECORD_BASE + RECORD_WIDTH * q as usize
}

// The word of a leaf with which entry i begins. Here and below i may be as many as there is room for: the word behind the last one.
pub fn entry_word(i: usize) -> usize
    requires { i ≤ 9 }
    ensures { result ≡ entry_word i }
{
    HEAD_WIDTH + ENTRY_WIDTH * i
}

// The word of an inner page with which key i begins.
pub fn key_word(i: usize) -> usize
    requires { i ≤ 9 }
    ensures { result ≡ key_word i }
{
    HEAD_WIDTH + KEY_WIDTH * i
}

// The word of an inner page with child i.
pub fn child_word(i: usize) -> usize
    requires { i ≤ 10 }
    ensures { result ≡ child_word i }
{
    FIRST_CHILD + i
}

// Word i of page p.
pub fn page_word(img: &[u32], p: u32, i: usize) -> u32
    requires { i < page_width }
    ensures { result ≡ get_or (page_of img.now p) i 0 }
{
    words::word(img, page_at(p) + i)
}

// 0 for a free place.
pub fn mark(img: &[u32], p: u32) -> u32
    ensures { result ≡ mark_of (page_of img.now p) }
{
    page_word(img, p, 0)
}

// How many entries or keys the page says it has.
pub fn fill(img: &[u32], p: u32) -> u32
    ensures { result ≡ fill_of (page_of img.now p) }
{
    page_word(img, p, 1)
}

// The leaf on the right, 0 for none.
pub fn next_leaf(img: &[u32], p: u32) -> u32
    ensures { result ≡ next_of (page_of img.now p) }
{
    page_word(img, p, 2)
}

// Four words of a page from word b on, as a region.
pub fn region_at(img: &[u32], p: u32, b: usize) -> Region
    requires { b + 4 ≤ page_width }
    ensures { result ≡ region_in (page_of img.now p) b }
{
    Region {
        start: page_word(img, p, b),
        end: page_word(img, p, b + 1),
        level: page_word(img, p, b + 2),
        reference: page_word(img, p, b + 3),
    }
}

// The region of entry i of leaf p.
pub fn entry_region(img: &[u32], p: u32, i: usize) -> Region
    requires { i < 9 }
    ensures { result ≡ region_in (page_of img.now p) (entry_word i) }
{
    region_at(img, p, entry_word(i))
}

pub fn entry_start(img: &[u32], p: u32, i: usize) -> u32
    requires { i < 9 }
    ensures { result ≡ get_or (page_of img.now p) (entry_word i) 0 }
{
    page_word(img, p, entry_word(i))
}

pub fn entry_flag(img: &[u32], p: u32, i: usize) -> u32
    requires { i < 9 }
    ensures { result ≡ flag_in (page_of img.now p) i }
{
    page_word(img, p, entry_word(i) + 4)
}

// Key i of inner page p alone.
pub fn key_number(img: &[u32], p: u32, i: usize) -> u32
    requires { i < 9 }
    ensures { result ≡ get_or (page_of img.now p) (key_word i) 0 }
{
    page_word(img, p, key_word(i))
}

// Key i of inner page p with its stored pair and the head of its list.
pub fn key_words(img: &[u32], p: u32, i: usize) -> KeyWords
    requires { i < 9 }
    ensures { (result.key ≡ get_or (page_of img.now p) (key_word i) 0) × (result.start ≡ get_or (page_of img.now p) (key_word i + 1) 0) × (result.end ≡ get_or (page_of img.now p) (key_word i + 2) 0) × (result.head ≡ get_or (page_of img.now p) (key_word i + 3) 0) }
{
    let b = key_word(i);
    KeyWords {
        key: page_word(img, p, b),
        start: page_word(img, p, b + 1),
        end: page_word(img, p, b + 2),
        head: page_word(img, p, b + 3),
    }
}

// Child i of inner page p.
pub fn child(img: &[u32], p: u32, i: usize) -> u32
    requires { i < 10 }
    ensures { result ≡ child_in (page_of img.now p) i }
{
    page_word(img, p, child_word(i))
}

// Word i of stab record q.
pub fn record_word(img: &[u32], q: u32, i: usize) -> u32
    requires { i < record_width }
    ensures { result ≡ get_or (record_of img.now q) i 0 }
{
    words::word(img, record_at(q) + i)
}

// The region of stab record q.
pub fn record_region(img: &[u32], q: u32) -> Region
    ensures { result ≡ region_in (record_of img.now q) 0 }
{
    Region {
        start: record_word(img, q, 0),
        end: record_word(img, q, 1),
        level: record_word(img, q, 2),
        reference: record_word(img, q, 3),
    }
}

// The record behind q in its list, 0 for none.
pub fn record_next(img: &[u32], q: u32) -> u32
    ensures { result ≡ record_next (record_of img.now q) }
{
    record_word(img, q, 4)
}

// 0 for a free record.
pub fn record_end(img: &[u32], q: u32) -> u32
    ensures { result ≡ record_end (record_of img.now q) }
{
    record_word(img, q, 1)
}
