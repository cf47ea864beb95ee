// The stack of a join: the outer regions that hold a place, in lent words, the innermost on top, which is the last. It follows the places as they ascend, and pairs what it
// holds with each d. No image is read here: whoever reads regions in ascending start can keep such a stack.
#![tactic(auto)]

ghost use Rattle.std.specs.Prelude.{◌<◌, ◌≤◌, ◌≡◌, true, false, [], ◌∷◌, ◌++◌, length};
ghost use Rattle.words.specs.Lists.{filter, All};
ghost use Rattle.regions.specs.Limits.{most_around};
ghost use Rattle.regions.specs.Positions.{holds};
ghost use Rattle.regions.specs.Calls.{choice_of, pair_of};
ghost use Rattle.regions.specs.Desk.{is_past};
ghost use Rattle.regions.specs.Sound.{Rising};
ghost use Rattle.regions.specs.declared.Region.{Region};
ghost use Rattle.pairing.specs.Pairs.{PairedUp};
ghost use Rattle.stack.specs.Stacks.{held_words, ends_behind, Falling, region_at, stacked};

use regions::{Kind, Mark, Region};

// Room for as many regions as can lie around one position: 255, since their levels rise inwards.
pub const HELD_WORDS: usize = 1020;

// Region number i of the stack.
fn region_at(held: &[u32], i: usize) -> Region
    requires { (i < most_around) × (length held.now ≡ held_words) }
    ensures { result ≡ region_at held.now i }
{
    let at = 4 * i;
    Region {
        start: held[at],
        end: held[at + 1],
        level: held[at + 2],
        reference: held[at + 3],
    }
}

// How many are left once those on top that end at p or before are gone. Regions that hold one place end the sooner the later they start.
pub fn pop_ended(held: &[u32], n: usize, p: u32) -> usize
    requires n_le_most_around { (n ≤ most_around) × (length held.now ≡ held_words) }
    requires falling { Falling (stacked held.now n) }
    ensures { stacked held.now result ≡ filter (ends_behind p) (stacked held.now n) }
{
    for i in (0..n).rev() {
        if p < held[4 * i + 1] {
            return i + 1;
        }
    }
    0
}

// A region that starts before p: where it holds p, it goes on top. (There is room: it and those below it lie around the position where it starts.)
pub fn push(held: &mut [u32], n: usize, a: Region, p: u32) -> usize
    requires n_lt_most_around { n < most_around }
    requires held_len { length held.old ≡ held_words }
    ensures { stacked held.new result ≡ stacked held.old n ++ filter (ends_behind p) (a ∷ []) }
{
    if a.end <= p {
        return n;
    }
    answers::put_region(held, n, a);
    n + 1
}

// The pairs of d with the whole stack, past the mark. All of them are counted; or those that fit, and no more are looked for once the room is used up. (Most of a join's
// time is spent here: which of the two is asked for is settled before the program runs, so that no pair waits for that test.)
fn pair_each<const ALL: bool>(
    held: &[u32],
    n: usize,
    d: Region,
    kind: Kind,
    mark: Mark,
    out: &mut [u32],
    total: usize,
) -> usize
    requires n_le_most_around { (n ≤ most_around) × (total ≤ 250000) × (length held.now ≡ held_words) }
    requires all { All (λ (a : Region). holds (choice_of kind) d.start a ≡ true) (stacked held.now n) }
    ensures { PairedUp (stacked held.now n) kind mark d ALL out.old total out.new result }
{
    let room = out.len() / 4;
    let mut k = total;
    for i in 0..n {
        if !ALL && room <= k {
            return k;
        }
        k = pairing::pair_one(region_at(held, i), d, kind, mark, out, k);
    }
    k
}

// Whether no pair of d with the stack comes past the mark: the innermost starts last, so that it alone is looked at. A seat that has been served up to a d's last pair begins so.
fn none_past(held: &[u32], n: usize, d: Region, mark: Mark) -> bool
    requires n_le_most_around { (n ≤ most_around) × (length held.now ≡ held_words) }
    requires rising { Rising (stacked held.now n) }
    ensures { result ≡ true → All (λ (a : Region). is_past mark (pair_of d a) ≡ false) (stacked held.now n) }
{
    n == 0 || !pairing::is_past(mark, d, region_at(held, n - 1))
}

// ONE d: its pairs with the whole stack, past the mark; all are counted, or those that fit.
pub fn pair_up(
    held: &[u32],
    n: usize,
    d: Region,
    kind: Kind,
    mark: Mark,
    out: &mut [u32],
    total: usize,
    all: bool,
) -> usize
    requires n_le_most_around { (n ≤ most_around) × (total ≤ 250000) × (length held.now ≡ held_words) }
    requires all { All (λ (a : Region). holds (choice_of kind) d.start a ≡ true) (stacked held.now n) }
    requires rising { Rising (stacked held.now n) }
    ensures { PairedUp (stacked held.now n) kind mark d all out.old total out.new result }
{
    if none_past(held, n, d, mark) {
        total
    } else if all {
        pair_each::<true>(held, n, d, kind, mark, out, total)
    } else {
        pair_each::<false>(held, n, d, kind, mark, out, total)
    }
}
