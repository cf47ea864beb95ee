// A root more, above a root that is to be split, and a root less where it has only one child left.
#![tactic(auto)]

ghost use Rattle.std.specs.Prelude.{◌≡◌, List, [], ℕ, suc, ◌≤◌, length};
ghost use Rattle.regions.specs.declared.Region.{Region};
ghost use Rattle.xrtree.specs.Tree.{Tree};
ghost use Rattle.xrtree.specs.Claims.{page_at};
ghost use Rattle.pages.specs.Layout.{height_of, image_words};
ghost use Rattle.roots.specs.WholeTree.{Whole, PageRoom, Grew, RootIs, Shrank};

use regions::Region;

// A new root with no key, above the old one.
pub fn grow_root(img: &mut [u32])
    requires { (length img.old ≡ image_words) × (height_of img.old ≤ 4) × PageRoom img.old }
    ensures { (rs : List Region) (h : ℕ) (t : Tree h) → Whole img.old rs h t → Grew img.old img.new rs h t }
{
    let q = store::first_free_page(img);
    let old = path::root(img);
    let tall = words::word(img, 1);
    let ws = newpages::inner_single(old);
    store::store_page(img, q, ws);
    store::set_root(img, q);
    store::set_height(img, tall + 1);
}

// A root with no key gives way to its only child.
pub fn shrink_root(img: &mut [u32])
    requires { RootIs img.old }
    ensures { (rs : List Region) (h q : ℕ) (t : Tree h) → Whole img.old rs (suc h) (page_at q [] t) → Shrank img.old img.new rs h t }
{
    let old = path::root(img);
    let child = pages::child(img, old, 0);
    let tall = words::word(img, 1);
    store::free_page(img, old);
    store::set_root(img, child);
    store::set_height(img, tall - 1);
}
