// Answers: items of four words each, written into a lent slice as long as they fit. Other words stay.
#![tactic(auto)]

ghost use Rattle.std.specs.Prelude.{◌≡◌, [], ◌∷◌};
ghost use Rattle.regions.specs.Calls.{region_words, pair_of, pair_words};
ghost use Rattle.answers.specs.Items.{written_from, as_words};

use regions::Region;

// Four words as item number k. The room is tested before k is multiplied, so that any k may be given.
fn put_four(out: &mut [u32], k: usize, item: [u32; 4])
    ensures { out.new ≡ written_from as_words 4 k out.old (item ∷ []) }
{
    if out.len() / 4 <= k {
        return;
    }
    let at = 4 * k;
    out[at..at + 4].copy_from_slice(&item);
}

// A region as item number k.
pub fn put_region(out: &mut [u32], k: usize, r: Region)
    ensures { out.new ≡ written_from region_words 4 k out.old (r ∷ []) }
{
    put_four(out, k, [r.start, r.end, r.level, r.reference]);
}

// The pair of an ancestor a and its descendant d as item number k.
pub fn put_pair(out: &mut [u32], k: usize, a: Region, d: Region)
    ensures { out.new ≡ written_from pair_words 4 k out.old (pair_of d a ∷ []) }
{
    put_four(out, k, [a.start, a.reference, d.start, d.reference]);
}
