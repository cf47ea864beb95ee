// One traversal along a position's path serves ancestor search, strict or with self, and parent search: what is asked of each ancestor is its task.
#![tactic(auto)]

ghost use Rattle.std.specs.Prelude.{◌≡◌, T, ◌≤◌};
ghost use Rattle.regions.specs.Calls.{ancestors, parent};
ghost use Rattle.pages.specs.Layout.{root_of, height_of};
ghost use Rattle.image.specs.Read.{depth_of, tree_of, set_of};
ghost use Rattle.image.specs.Fills.{Fills};
ghost use Rattle.image.specs.Valid.{valid};
ghost use Rattle.path.specs.Path.{path_of, padded};
ghost use Rattle.xrtree.specs.Search.{find, steps};
ghost use Rattle.tally.specs.Tallies.{found_list, Tallied, AncestorsFound, fresh_tally};

use regions::{Choice, Region};
use tally::{Tally, Task};

// Goes along p's path: the lists of each inner page, from the root down, then the leaf. Each page is a step.
fn search_path(
    img: &[u32],
    way: [u32; 4],
    choice: Choice,
    p: u32,
    task: Task,
    out: &mut [u32],
) -> Tally
    requires bound { (1 ≤ height_of img.now) × (height_of img.now ≤ 4) }
    requires fills { Fills (depth_of img.now) img.now (root_of img.now) }
    requires way_value { way ≡ padded (path_of img.now p) }
    ensures { Tallied task out.old fresh_tally (find (depth_of img.now) choice p (tree_of img.now)) (steps (depth_of img.now) choice p (tree_of img.now)) out.new result }
{
    let depth = path::depth(img);
    let mut t = Tally::fresh();
    for i in 0..depth {
        t.step();
        meets::page_lists(img, way[i], choice, p, task, out, &mut t);
    }
    t.step();
    leafmet::leaf_own(img, way[depth], choice, p, task, out, &mut t);
    t
}

// THE SEARCH of a valid image for the ancestors of p, outermost first, along p's path.
fn search(img: &[u32], way: [u32; 4], choice: Choice, p: u32, task: Task, out: &mut [u32]) -> Tally
    requires img_valid { T (valid img.now) }
    requires way_value { way ≡ padded (path_of img.now p) }
    ensures { Tallied task out.old fresh_tally (ancestors choice p (set_of img.now)) (steps (depth_of img.now) choice p (tree_of img.now)) out.new result }
{
    search_path(img, way, choice, p, task, out)
}

// ANCESTOR SEARCH of a valid image along p's path, for those who have it: as many as fit, their total, and the steps made.
pub fn ancestors_along(img: &[u32], way: [u32; 4], choice: Choice, p: u32, out: &mut [u32]) -> Tally
    requires img_valid { T (valid img.now) }
    requires way_value { way ≡ padded (path_of img.now p) }
    ensures { AncestorsFound (ancestors choice p (set_of img.now)) (steps (depth_of img.now) choice p (tree_of img.now)) out.old out.new result }
{
    search(img, way, choice, p, Task::List, out)
}

// ANCESTOR SEARCH of a valid image: down to p's leaf, and along that path.
pub fn ancestors(img: &[u32], choice: Choice, p: u32, out: &mut [u32]) -> Tally
    requires { T (valid img.now) }
    ensures { AncestorsFound (ancestors choice p (set_of img.now)) (steps (depth_of img.now) choice p (tree_of img.now)) out.old out.new result }
{
    ancestors_along(img, path::descend(img, p), choice, p, out)
}

// PARENT SEARCH of a valid image, always strict: the ancestor whose level is one less, or none. No two ancestors have the same level, so whichever was taken is the only
// one. One word has no room for a region, so none is written.
pub fn parent(img: &[u32], p: u32, level: u32) -> Option<Region>
    requires { T (valid img.now) }
    ensures { found_list result ≡ parent p level (set_of img.now) }
{
    if level == 0 {
        return None;
    }
    let t = search(
        img,
        path::descend(img, p),
        Choice::Strict,
        p,
        Task::Above(level),
        &mut [0; 1],
    );
    t.last
}
