// Which pairs of a d are handed: those of the kind that is asked for, past the mark. One is written and counted.
#![tactic(auto)]

ghost use Rattle.std.specs.Prelude.{◌≡◌, true, [], ◌∷◌, ◌<◌};
ghost use Rattle.regions.specs.Positions.{holds};
ghost use Rattle.regions.specs.Calls.{choice_of, pair_of};
ghost use Rattle.regions.specs.Desk.{is_past};
ghost use Rattle.pairing.specs.Pairs.{paired, PairedUp};

use regions::{Kind, Mark, Region};

// Whether the pair of a and d comes later than the marked one, by d's start and then by a's. (As one condition with `&&` and `||`, here and in `takes`, a nested join takes a
// third more: nearly all of its time is spent on these tests.)
pub fn is_past(mark: Mark, d: Region, a: Region) -> bool
    ensures { result ≡ is_past mark (pair_of d a) }
{
    let Mark::Last(x, y) = mark else {
        return true;
    };
    if y < d.start {
        return true;
    }
    if d.start < y {
        return false;
    }
    x < a.start
}

// Whether the pair of d and an a that holds it is asked for: by the kind, and past the mark.
fn takes(kind: Kind, mark: Mark, d: Region, a: Region) -> bool
    requires { holds (choice_of kind) d.start a ≡ true }
    ensures { result ≡ paired kind mark d a }
{
    if !is_past(mark, d, a) {
        return false;
    }
    regions::level_fits(kind, d.level, a)
}

// The pair of d and an a that holds it, where it is asked for.
pub fn pair_one(a: Region, d: Region, kind: Kind, mark: Mark, out: &mut [u32], k: usize) -> usize
    requires { (k < 1099511627776) × (holds (choice_of kind) d.start a ≡ true) }
    ensures { PairedUp (a ∷ []) kind mark d true out.old k out.new result }
{
    if !takes(kind, mark, d, a) {
        return k;
    }
    answers::put_pair(out, k, a, d);
    k + 1
}
