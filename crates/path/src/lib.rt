// The way down: the child that a position belongs to, and the pages on its path, root first, by value.
#![tactic(auto)]

ghost use Rattle.std.specs.Prelude.{◌≡◌, ◌≤◌};
ghost use Rattle.pages.specs.Layout.{root_of, height_of, page_of, fill_of};
ghost use Rattle.image.specs.Read.{depth_of};
ghost use Rattle.image.specs.Fills.{Fills};
ghost use Rattle.path.specs.Path.{rank_in, path_of, padded};

// The root's place.
pub fn root(img: &[u32]) -> u32
    ensures { result ≡ root_of img.now }
{
    words::word(img, 0)
}

// How many pages lie below the root on every path.
pub fn depth(img: &[u32]) -> usize
    requires { 1 ≤ height_of img.now }
    ensures { result ≡ depth_of img.now }
{
    words::word(img, 1) as usize - 1
}

// The child of an inner page that x belongs to: as many keys as are at most x stand left of it.
pub fn rank(img: &[u32], page: u32, x: u32) -> usize
    requires { fill_of (page_of img.now page) ≤ 8 }
    ensures { result ≡ rank_in (page_of img.now page) x }
{
    let n = pages::fill(img, page) as usize;
    (0..n)
        .find(|&i| x < pages::key_number(img, page, i))
        .unwrap_or(n)
}

// The pages from the root to the leaf where x belongs; 0 behind them where the tree is not four pages high.
pub fn descend(img: &[u32], x: u32) -> [u32; 4]
    requires bound { (1 ≤ height_of img.now) × (height_of img.now ≤ 4) }
    requires fills { Fills (depth_of img.now) img.now (root_of img.now) }
    ensures { result ≡ padded (path_of img.now x) }
{
    let depth = depth(img);
    let mut path = [0u32; 4];
    let mut at = root(img);
    for i in 0..depth {
        path[i] = at;
        at = pages::child(img, at, rank(img, at, x));
    }
    path[depth] = at;
    path
}
