// The steps of a save and a delete that change the set: an entry comes into its leaf or leaves it, and with it its owner's list; and the root's two steps.
#![tactic(auto)]

ghost use Rattle.std.specs.Prelude.{◌≡◌, ◌≤◌, ◌<◌};
ghost use Rattle.xrtree.specs.Moves.{put, out};
ghost use Rattle.pages.specs.Layout.{page_of, fill_of};
ghost use Rattle.newpages.specs.Pages.{new_entry};
ghost use Rattle.records.specs.Touched.{Room};
ghost use Rattle.entries.specs.Ways.{renew};
ghost use Rattle.entries.specs.Owners.{entries_before, put_entry, out_entry};
ghost use Rattle.entries.specs.Lies.{LeafReady, LeafStep, OwnerReady, ListStep};
ghost use Rattle.entries.specs.Changed.{Entering, Entered, Leaving, Left};

use owners::Spot;
use regions::Region;

// How many entries of a leaf start before x.
fn entries_before(img: &[u32], leaf: u32, x: u32) -> usize
    requires { fill_of (page_of img.now leaf) ≤ 9 }
    ensures { result ≡ entries_before (page_of img.now leaf) x }
{
    let n = pages::fill(img, leaf) as usize;
    for i in 0..n {
        if x <= pages::entry_start(img, leaf, i) {
            return i;
        }
    }
    n
}

// The entry of r into its leaf, by its start: the entries behind move one place on within the page, each with its spare word.
fn put_leaf(img: &mut [u32], leaf: u32, r: Region, flag: u32)
    requires { LeafReady img.old leaf r.start × (fill_of (page_of img.old leaf) ≤ 8) }
    ensures { (s : LeafReady img.old leaf r.start) → LeafStep img.old img.new (renew (put_entry (new_entry r flag))) r.start s.h s.t }
{
    let i = entries_before(img, leaf, r.start);
    let n = pages::fill(img, leaf);
    let gap = pages::page_at(leaf) + pages::entry_word(i);
    let run = pages::ENTRY_WIDTH * (n as usize - i);
    store::move_up(img, gap, run, pages::ENTRY_WIDTH);
    store::put_entry(img, leaf, i, r, flag);
    store::set_fill(img, leaf, n + 1);
}

// The entry number i, the first that does not start before `start`, out of its leaf.
fn take_leaf(img: &mut [u32], leaf: u32, start: u32, i: usize)
    requires { LeafReady img.old leaf start × (i ≡ entries_before (page_of img.old leaf) start) × (i < fill_of (page_of img.old leaf)) }
    ensures { (s : LeafReady img.old leaf start) → LeafStep img.old img.new (renew (out_entry start)) start s.h s.t }
{
    let ws = store::load_page(img, leaf);
    let without = newpages::leaf_without(ws, i);
    store::store_page(img, leaf, without);
}

// The record of r into its owner's list, where it has an owner.
fn enter_owner(img: &mut [u32], at: Option<Spot>, r: Region)
    requires { OwnerReady img.old at r × Room img.old }
    ensures { (s : OwnerReady img.old at r) → ListStep img.old img.new (put r) r s.h s.t }
{
    if let Some(Spot { page, key }) = at {
        let k = pages::key_words(img, page, key);
        let entered = records::enter(img, k, r);
        store::put_key(img, page, key, entered);
    }
}

// The record of r out of its owner's list.
fn leave_owner(img: &mut [u32], at: Option<Spot>, r: Region)
    requires { OwnerReady img.old at r }
    ensures { (s : OwnerReady img.old at r) → ListStep img.old img.new (out r.start) r s.h s.t }
{
    if let Some(Spot { page, key }) = at {
        let k = pages::key_words(img, page, key);
        let left = records::leave(img, k, r.start);
        store::put_key(img, page, key, left);
    }
}

// SAVE: the region into its leaf and into its owner's list. The leaf may hold nine entries then.
pub fn put_entry(img: &mut [u32], path: [u32; 4], r: Region)
    requires { Entering img.old path r }
    ensures { (s : Entering img.old path r) → Entered img.old img.new r s.earlier s.later s.h s.t }
{
    let d = path::depth(img);
    let leaf = path[d];
    let at = owners::owner(img, path, d, r.start, r.end);
    put_leaf(img, leaf, r, u32::from(at.is_some()));
    enter_owner(img, at, r);
}

// DELETE: the region with that start out of its leaf and out of its owner's list. The leaf may hold three entries then.
pub fn take_entry(img: &mut [u32], path: [u32; 4], start: u32)
    requires { Leaving img.old path start }
    ensures { (s : Leaving img.old path start) → Left img.old img.new start s.earlier s.later s.h s.t }
{
    let d = path::depth(img);
    let leaf = path[d];
    let i = entries_before(img, leaf, start);
    let r = pages::entry_region(img, leaf, i);
    let at = owners::owner(img, path, d, r.start, r.end);
    take_leaf(img, leaf, start, i);
    leave_owner(img, at, r);
}
