// The save of one region into a valid image: its entry comes into its leaf and its owner's list, then every page that holds nine is split, from the leaf up to the root.
#![tactic(auto)]

ghost use Rattle.std.specs.Prelude.{◌≡◌, List, ℕ, ◌+◌, ◌<◌, T, get_or};
ghost use Rattle.regions.specs.declared.Region.{Region};
ghost use Rattle.regions.specs.Sets.{saved};
ghost use Rattle.regions.specs.Calls.{save_no};
ghost use Rattle.xrtree.specs.Tree.{Tree};
ghost use Rattle.image.specs.Read.{set_of};
ghost use Rattle.image.specs.Valid.{valid};
ghost use Rattle.standing.specs.Stands.{Around};
ghost use Rattle.insert.specs.Spreads.{Settling, Settled, Spreading, Spreads, Topping, Topped};

use regions::Region;

// Child i of page number `at` of the path, itself the next page of the path, with `low` pages below it: where it holds nine, it is split, and both parts hold four or five.
fn settle(img: &mut [u32], path: [u32; 4], at: usize, i: usize, low: usize)
    requires { (at < 3) × ((h : ℕ) × Settling img.old h (get_or path at 0) i (get_or path (at + 1) 0) low) }
    ensures { (h : ℕ) (s : Settling img.old h (get_or path at 0) i (get_or path (at + 1) 0) low) → Settled img.old img.new h (get_or path at 0) i (get_or path (at + 1) 0) low s }
{
    if pages::fill(img, path[at + 1]) != 9 {
        return;
    }
    if low == 0 {
        split::leaf(img, path, at, i, 4);
        return;
    }
    split::inner(img, path, at, i, 4);
}

// Below page number `at` of x's path every page holds four to eight again. A page's own child is settled after what lies below that child; its index is the rank of x, which no step below changes.
fn spread(img: &mut [u32], path: [u32; 4], leaf: usize, at: usize, x: u32)
    requires { (rs : List Region) × (h : ℕ) × (lo : ℕ) × (hi : ℕ) × (o : Around) × (t : Tree h) × Spreading img.old path leaf at x rs h lo hi o t }
    ensures { (rs : List Region) (h lo hi : ℕ) (o : Around) (t : Tree h) → Spreading img.old path leaf at x rs h lo hi o t → Spreads img.old img.new rs h lo hi o t }
{
    if at < leaf {
        let i = path::rank(img, path[at], x);
        spread(img, path, leaf, at + 1, x);
        settle(img, path, at, i, leaf - at - 1);
    }
}

// Where the root holds nine, a new root comes above it, and it is split: the two are a path of their own.
fn relieve_root(img: &mut [u32], low: usize)
    requires { Topping img.old low }
    ensures { (s : Topping img.old low) → Topped img.old img.new s.rs }
{
    let p = path::root(img);
    if pages::fill(img, p) != 9 {
        return;
    }
    roots::grow_root(img);
    let q = path::root(img);
    let path = [q, p, 0, 0];
    settle(img, path, 0, 0, low);
}

// SAVE a region that the set of a valid image may take: the image is valid again, and its set has the region.
pub fn insert(img: &mut [u32], r: Region)
    requires { (a : ℕ) × T (valid img.old) × (save_no (set_of img.old) a r ≡ 0) }
    ensures { T (valid img.new) × (set_of img.new ≡ saved r (set_of img.old)) }
{
    let path = path::descend(img, r.start);
    entries::put_entry(img, path, r);
    let d = path::depth(img);
    spread(img, path, d, 0, r.start);
    relieve_root(img, d);
}
