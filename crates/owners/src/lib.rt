// Which key of a path owns a region: the first on the way down, from the root, that stabs it. Its record stands in that key's list.
#![tactic(auto)]

ghost use Rattle.std.specs.Prelude.{◌≡◌, ◌≤◌, take};
ghost use Rattle.words.specs.Lists.{All};
ghost use Rattle.pages.specs.Layout.{page_of, fill_of};
ghost use Rattle.owners.specs.Owners.{below_in, owns_at, owner_along};

// Where a region's owner stands: key number `key` of page `page`.
#[derive(Clone, Copy, Debug, PartialEq, Eq)]
pub struct Spot {
    pub page: u32,
    pub key: usize,
}

// The first key of an inner page that is not below x; how many keys there are where all are.
fn below(img: &[u32], page: u32, x: u32) -> usize
    requires { fill_of (page_of img.now page) ≤ 9 }
    ensures { result ≡ below_in (page_of img.now page) x }
{
    let n = pages::fill(img, page) as usize;
    for i in 0..n {
        if x <= pages::key_number(img, page, i) {
            return i;
        }
    }
    n
}

// Is there a key i, and is it at most `end`.
fn owns(img: &[u32], page: u32, i: usize, end: u32) -> bool
    requires { fill_of (page_of img.now page) ≤ 9 }
    ensures { result ≡ owns_at (page_of img.now page) end (fill_of (page_of img.now page)) i }
{
    let n = pages::fill(img, page) as usize;
    i < n && pages::key_number(img, page, i) <= end
}

// The owner of a region among the keys of the first d pages of its path, if one of them owns it. The path goes right of keys that are at most the start, the owner's
// way left of the first that is not below it: they part only at a key that is the start, and that one owns the region.
pub fn owner(img: &[u32], path: [u32; 4], d: usize, start: u32, end: u32) -> Option<Spot>
    requires { (d ≤ 3) × All (λ p. fill_of (page_of img.now p) ≤ 9) (take d path) }
    ensures { result ≡ owner_along img.now start end (take d path) }
{
    for &p in &path[..d] {
        let k = below(img, p, start);
        if owns(img, p, k, end) {
            return Some(Spot { page: p, key: k });
        }
    }
    None
}
