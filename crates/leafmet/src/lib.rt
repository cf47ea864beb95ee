// What a search meets in a leaf: the entries that hold the position and stand in no list.
#![tactic(auto)]

ghost use Rattle.std.specs.Prelude.{[], ◌∷◌, ◌<◌, ◌≤◌};
ghost use Rattle.pages.specs.Layout.{page_of, fill_of};
ghost use Rattle.image.specs.Read.{entry_at};
ghost use Rattle.tally.specs.Tallies.{Tallied, Small};
ghost use Rattle.leafmet.specs.LeafMet.{entries_met, leaf_met};

use regions::Choice;
use tally::{Tally, Task};

// Entry i of a leaf, where it stands in no list (flag 0) and holds p.
fn own_entry(
    img: &[u32],
    page: u32,
    i: usize,
    choice: Choice,
    p: u32,
    task: Task,
    out: &mut [u32],
    t: &mut Tally,
)
    requires i_bound { i < 9 }
    requires small { Small 40000 t.old }
    ensures { Tallied task out.old t.old (entries_met choice p (entry_at (page_of img.now page) i ∷ [])) 0 out.new t.new }
{
    if pages::entry_flag(img, page, i) != 0 {
        return;
    }
    let a = pages::entry_region(img, page, i);
    if !regions::holds(choice, p, a) {
        return;
    }
    t.visit(task, a, out);
}

// The regions that a leaf holds and no list does.
pub fn leaf_own(
    img: &[u32],
    page: u32,
    choice: Choice,
    p: u32,
    task: Task,
    out: &mut [u32],
    t: &mut Tally,
)
    requires page_bound { fill_of (page_of img.now page) ≤ 8 }
    requires small { Small 30000 t.old }
    ensures { Tallied task out.old t.old (leaf_met img.now choice p page) 0 out.new t.new }
{
    let n = pages::fill(img, page) as usize;
    for i in 0..n {
        own_entry(img, page, i, choice, p, task, out, t);
    }
}
