// Whether the flags of a leaf say rightly which of its regions stand in a list.
#![tactic(auto)]

ghost use Rattle.std.specs.Prelude.{◌≡◌, ◌<◌};
ghost use Rattle.words.specs.Lists.{all};
ghost use Rattle.pages.specs.Layout.{page_of, fill_of};
ghost use Rattle.image.specs.Read.{entry_at, entries_from};
ghost use Rattle.trail.specs.Pass.{Fills};
ghost use Rattle.flags.specs.Pass.{between, flag_here};

use regions::Region;

// Whether no key stabs the region of an entry in a leaf between these bounds: such a key would be one of the two around the leaf.
fn lies_between(r: Region, low: usize, high: usize) -> bool
    ensures { result ≡ between low high r }
{
    low <= r.start as usize && (r.end as usize) < high
}

// An entry's flag is 0 where no key stabs its region: where the region lies between the keys around its leaf.
fn flag_right(img: &[u32], p: u32, i: usize, low: usize, high: usize) -> bool
    requires { i < 9 }
    ensures { result ≡ flag_here low high (entry_at (page_of img.now p) i) }
{
    let flag = pages::entry_flag(img, p, i);
    if lies_between(pages::entry_region(img, p, i), low, high) {
        flag == 0
    } else {
        flag == 1
    }
}

// All flags of a leaf.
pub fn flags_right(img: &[u32], p: u32, low: usize, high: usize) -> bool
    requires { Fills 0 img.now p }
    ensures { result ≡ all (flag_here low high) (entries_from (page_of img.now p) 0 (fill_of (page_of img.now p))) }
{
    let n = pages::fill(img, p) as usize;
    (0..n).all(|i| flag_right(img, p, i, low, high))
}
