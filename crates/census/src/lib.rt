// Decides whether the regions of a rightly shaped image are well formed, nest rightly, with levels that say the same, and keep to their accounts' shares,
// by one pass in ascending start; and counts what each account holds.
#![tactic(auto)]

ghost use Rattle.std.specs.Prelude.{◌≡◌, ℕ, ◌+◌, ◌-◌, ◌<◌, ◌≤◌, T, length, get_or, is_some, IfSome};
ghost use Rattle.regions.specs.Sets.{held_by};
ghost use Rattle.xrtree.specs.Rules.{rule6};
ghost use Rattle.pages.specs.Layout.{shares_of};
ghost use Rattle.image.specs.Read.{set_of};
ghost use Rattle.image.specs.Shape.{shapely};
ghost use Rattle.nesting.specs.State.{state_of, told};
ghost use Rattle.census.specs.Pass.{pass, regions_at, Fills};

use nesting::Pass;
use regions::Shares;

// The shares, by value: for the pass to count down.
fn shares_of(img: &[u32]) -> Shares
    requires { 18 ≤ length img.now }
    ensures { result ≡ shares_of img.now }
{
    let mut shares = [0u32; regions::ACCOUNT_COUNT];
    shares.copy_from_slice(&img[2..18]);
    shares
}

// The regions of a leaf.
fn leaf_regions(img: &[u32], p: u32, so_far: &mut Pass) -> Option<()>
    requires { Fills 0 img.now p }
    ensures { told result so_far.new ≡ pass (regions_at img.now 0 p) (state_of so_far.old) }
{
    for i in 0..pages::fill(img, p) as usize {
        so_far.enter(pages::entry_region(img, p, i))?;
    }
    Some(())
}

// The regions below a page whose leaves lie so many pages deeper.
fn tree_regions(img: &[u32], depth: u32, p: u32, so_far: &mut Pass) -> Option<()>
    requires { Fills depth img.now p }
    ensures { told result so_far.new ≡ pass (regions_at img.now depth p) (state_of so_far.old) }
{
    if depth == 0 {
        return leaf_regions(img, p, so_far);
    }
    for i in 0..=pages::fill(img, p) as usize {
        tree_regions(img, depth - 1, pages::child(img, p, i), so_far)?;
    }
    Some(())
}

// What was taken of each share, once no more was taken than there was.
fn taken(img: &[u32], left: &Shares) -> [u32; regions::ACCOUNT_COUNT]
    requires { (a : ℕ) → a < 16 → get_or left.now a 0 ≤ get_or img.now (2 + a) 0 }
    ensures { (a : ℕ) → a < 16 → get_or result a 0 ≡ get_or img.now (2 + a) 0 - get_or left.now a 0 }
{
    let mut held = [0u32; regions::ACCOUNT_COUNT];
    for i in 0..regions::ACCOUNT_COUNT {
        held[i] = words::word(img, 2 + i) - left[i];
    }
    held
}

// How many regions each account holds, if an image of the right shape keeps rule 6. Levels rise inwards or the pass stops, so that a place
// for each level is enough for the regions around one another, however many entries a hostile image has.
pub fn take_census(img: &[u32]) -> Option<[u32; regions::ACCOUNT_COUNT]>
    requires { T (shapely img.now) }
    ensures decides { is_some result ≡ rule6 (set_of img.now) }
    ensures counts { IfSome result (λ held. (a : ℕ) → a < 16 → get_or held a 0 ≡ held_by a (set_of img.now)) }
{
    let shares = shares_of(img);
    if !regions::shares_fit(shares) {
        return None;
    }
    let mut so_far = Pass::new(shares);
    tree_regions(
        img,
        words::word(img, 1) - 1,
        words::word(img, 0),
        &mut so_far,
    )?;
    Some(taken(img, &so_far.left))
}
