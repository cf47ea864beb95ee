// The words of a page by value: entries, keys and children read; a run of words, a key, the head written.
#![tactic(auto)]

ghost use Rattle.std.specs.Prelude.{◌≡◌, ◌+◌, ◌<◌, ◌≤◌, get_or};
ghost use Rattle.std.proofs.lemmas.List.Edits.{sets};
ghost use Rattle.pages.specs.Layout.{region_in, entry_word, flag_in, child_in, page_width, key_width};
ghost use Rattle.image.specs.Decode.{key_words_at};
ghost use Rattle.pagewords.specs.Words.{copied_in, headed_by, key_list};

use pages::{KeyWords, Page};
use regions::Region;

// Entry i of a leaf, without its flag.
pub fn entry_in(ws: Page, i: usize) -> Region
    requires { i < 9 }
    ensures { result ≡ region_in ws (entry_word i) }
{
    let b = pages::entry_word(i);
    Region {
        start: ws[b],
        end: ws[b + 1],
        level: ws[b + 2],
        reference: ws[b + 3],
    }
}

// The start of entry i alone.
pub fn start_in(ws: Page, i: usize) -> u32
    requires { i < 9 }
    ensures { result ≡ get_or ws (entry_word i) 0 }
{
    ws[pages::entry_word(i)]
}

// The flag of entry i: 0 where it is in no list.
pub fn flag_in(ws: Page, i: usize) -> u32
    requires { i < 9 }
    ensures { result ≡ flag_in ws i }
{
    ws[pages::entry_word(i) + 4]
}

// Key i of an inner page.
pub fn key_in(ws: Page, i: usize) -> KeyWords
    requires { i < 9 }
    ensures { result ≡ key_words_at ws i }
{
    let b = pages::key_word(i);
    KeyWords {
        key: ws[b],
        start: ws[b + 1],
        end: ws[b + 2],
        head: ws[b + 3],
    }
}

// Child i of an inner page.
pub fn child_in(ws: Page, i: usize) -> u32
    requires { i < 10 }
    ensures { result ≡ child_in ws i }
{
    ws[pages::child_word(i)]
}

// n words of `from`, starting at word b, over those of `to` from word a on. Both pages come by value, so that they may be the same page.
pub fn copied(to: Page, a: usize, from: Page, b: usize, n: usize) -> Page
    requires { (a + n ≤ page_width) × (b + n ≤ page_width) }
    ensures { result ≡ copied_in to a from b n }
{
    let mut ws = to;
    ws[a..a + n].copy_from_slice(&from[b..b + n]);
    ws
}

// The four words of a key, from word a on.
pub fn put_key(mut ws: Page, a: usize, k: KeyWords) -> Page
    requires { a + key_width ≤ page_width }
    ensures { result ≡ sets ws a (key_list k) }
{
    ws[a] = k.key;
    ws[a + 1] = k.start;
    ws[a + 2] = k.end;
    ws[a + 3] = k.head;
    ws
}

// Mark, fill and next leaf: the last thing that is written of a page.
pub fn headed(mut ws: Page, mark: u32, fill: u32, next: u32) -> Page
    ensures { result ≡ headed_by ws mark fill next }
{
    ws[0] = mark;
    ws[1] = fill;
    ws[2] = next;
    ws
}
