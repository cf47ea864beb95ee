// What save and delete do to a key's stab list: a region comes or goes, a beginning of one list goes in front of another, all records of a list
// are given back. Only words of stab records are written; a key is carried by value, and the caller stores its words into its page.
#![tactic(auto)]

ghost use Rattle.std.specs.Prelude.{◌≡◌, List, [], ℕ, ◌≤◌, length};
ghost use Rattle.pages.specs.Layout.{image_words, record_count};
ghost use Rattle.regions.specs.Positions.{stabs};
ghost use Rattle.xrtree.specs.Tree.{Key};
ghost use Rattle.holding.specs.Held.{Chain, KeyHeld};
ghost use Rattle.records.specs.Touched.{AllUsed, Room, Ends};
ghost use Rattle.records.specs.Ways.{before, LastOf, behind, linked_words, linked_head, key_from};
ghost use Rattle.records.specs.Kept.{Came, pushed_key, entered_key, Went, Lifts, Apart, Dropped};

use pages::KeyWords;
use regions::Region;

// The key that gave and the key that took.
#[derive(Clone, Copy)]
pub struct Lifted {
    pub from: KeyWords,
    pub to: KeyWords,
}

// The last record of the list's beginning whose regions x stabs, 0 where x does not stab the first. (Lists nest, so x stabs none behind it.)
fn last_stabbed(img: &[u32], head: u32, x: u32) -> u32
    requires { Ends img.now head }
    ensures { LastOf (stabs x) img.now head result }
{
    let mut last: u32 = 0;
    let mut q = head;
    // A walk by links: there is no index to count.
    while q != 0 {
        let r = pages::record_region(img, q);
        if x < r.start {
            return last;
        }
        if r.end < x {
            return last;
        }
        last = q;
        q = pages::record_next(img, q);
    }
    last
}

// The last record whose region starts before a given start, 0 where none does.
fn last_before(img: &[u32], head: u32, start: u32) -> u32
    requires { Ends img.now head }
    ensures { LastOf (before start) img.now head result }
{
    let mut last: u32 = 0;
    let mut q = head;
    // A walk by links: there is no index to count.
    while q != 0 {
        let r = pages::record_region(img, q);
        if start <= r.start {
            return last;
        }
        last = q;
        q = pages::record_next(img, q);
    }
    last
}

// The record behind p, or the list's first where p is 0: so the front of a list is no special case for those who change it.
fn record_behind(img: &[u32], head: u32, p: u32) -> u32
    ensures { result ≡ behind img.now head p }
{
    if p == 0 {
        return head;
    }
    pages::record_next(img, p)
}

// Lets the list go on with record n behind p; answers its head, which is n itself where p is 0.
fn link(img: &mut [u32], head: u32, p: u32, n: u32) -> u32
    requires { (length img.old ≡ image_words) × (p ≤ record_count) }
    ensures { (result ≡ linked_head head p n) × (img.new ≡ linked_words img.old p n) }
{
    if p == 0 {
        return n;
    }
    store::set_next(img, p, n);
    head
}

// The key with the list from `head` on and the stored pair of that list: one step, so that no caller can forget the pair.
fn renewed(img: &[u32], k: KeyWords, head: u32) -> KeyWords
    ensures { result ≡ key_from img.now k.key head }
{
    if head == 0 {
        return KeyWords {
            key: k.key,
            start: 0,
            end: 0,
            head: 0,
        };
    }
    let r = pages::record_region(img, head);
    KeyWords {
        key: k.key,
        start: r.start,
        end: r.end,
        head,
    }
}

// A region in front of the list, as a leaf split finds them: from the last to the first.
pub fn push(img: &mut [u32], k: KeyWords, r: Region) -> KeyWords
    requires { (length img.old ≡ image_words) × Room img.old × (1 ≤ r.end) }
    ensures { (key : Key) → KeyHeld img.old k key → AllUsed img.old key.places → Came img.old img.new [] (pushed_key key r) result }
{
    let q = store::first_free_record(img);
    store::put_record(img, q, r, k.head);
    renewed(img, k, q)
}

// A region into its place by start, as a save does.
pub fn enter(img: &mut [u32], k: KeyWords, r: Region) -> KeyWords
    requires { (length img.old ≡ image_words) × Room img.old × (1 ≤ r.end) × Ends img.old k.head }
    ensures { (key : Key) → KeyHeld img.old k key → AllUsed img.old key.places → Came img.old img.new key.places (entered_key key r) result }
{
    let p = last_before(img, k.head, r.start);
    let q = store::first_free_record(img);
    let n = record_behind(img, k.head, p);
    store::put_record(img, q, r, n);
    let head = link(img, k.head, p, q);
    renewed(img, k, head)
}

// The region with that start out of the list, as a delete does; its record is free again.
pub fn leave(img: &mut [u32], k: KeyWords, start: u32) -> KeyWords
    requires { (length img.old ≡ image_words) × Ends img.old k.head }
    ensures { (key : Key) → KeyHeld img.old k key → AllUsed img.old key.places → Went img.old img.new key start result }
{
    let p = last_before(img, k.head, start);
    let gone = record_behind(img, k.head, p);
    if gone == 0 {
        return renewed(img, k, k.head);
    }
    let n = pages::record_next(img, gone);
    store::free_record(img, gone);
    let head = link(img, k.head, p, n);
    renewed(img, k, head)
}

// The beginning of one key's list that x stabs goes in front of another's: one record's next word changes, or none.
pub fn lift(img: &mut [u32], from: KeyWords, to: KeyWords, x: u32) -> Lifted
    requires { (length img.old ≡ image_words) × Ends img.old from.head }
    ensures { (a b : Key) → KeyHeld img.old from a → KeyHeld img.old to b → Apart a.places b.places → Lifts img.old img.new a b x result }
{
    let p = last_stabbed(img, from.head, x);
    let rest = record_behind(img, from.head, p);
    let head = link(img, from.head, p, to.head);
    let gave = renewed(img, from, rest);
    let took = renewed(img, to, head);
    Lifted {
        from: gave,
        to: took,
    }
}

// Gives all records of a list back, as a leaf merge does with what is left of its key's list.
pub fn drop_list(img: &mut [u32], head: u32)
    requires { (length img.old ≡ image_words) × Ends img.old head }
    ensures { (qs : List ℕ) → Chain img.old head qs → AllUsed img.old qs → Dropped img.old img.new qs }
{
    let mut q = head;
    // A walk by links: there is no index to count.
    while q != 0 {
        let n = pages::record_next(img, q);
        store::free_record(img, q);
        q = n;
    }
}
