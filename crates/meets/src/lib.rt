// What a search meets on one page of its path: the lists of an inner page, as far as their records hold the position, or the entries of a leaf that stand in no list.
#![tactic(auto)]

ghost use Rattle.std.specs.Prelude.{◌<◌, ◌≤◌};
ghost use Rattle.pages.specs.Layout.{page_of, fill_of};
ghost use Rattle.xrtree.specs.Search.{run, cost};
ghost use Rattle.tally.specs.Tallies.{Tallied, Small};
ghost use Rattle.meets.specs.PageMet.{held_from, looked_from, key_in, lists_met, lists_looked};

use regions::Choice;
use tally::{Tally, Task};

// Goes along a list of stab records as long as their regions hold p; the record that ends the walk is looked at too.
// No list of a valid image has 501 records, and no image at all can keep the walk longer.
fn walk_list(
    img: &[u32],
    head: u32,
    choice: Choice,
    p: u32,
    task: Task,
    out: &mut [u32],
    t: &mut Tally,
)
    requires { Small 40000 t.old }
    ensures { Tallied task out.old t.old (held_from img.now choice p 501 head) (looked_from img.now choice p 501 head) out.new t.new }
{
    let mut q = head;
    for _ in 0..501usize {
        if q == 0 {
            return;
        }
        let a = pages::record_region(img, q);
        t.step();
        if !regions::holds(choice, p, a) {
            return;
        }
        t.visit(task, a, out);
        q = pages::record_next(img, q);
    }
}

// The list of key i: read only where p lies between the two positions of its stored pair, since otherwise nothing in it holds p.
fn key_list(
    img: &[u32],
    page: u32,
    i: usize,
    choice: Choice,
    p: u32,
    task: Task,
    out: &mut [u32],
    t: &mut Tally,
)
    requires i_bound { i < 9 }
    requires small { Small 40000 t.old }
    ensures { Tallied task out.old t.old (run choice p (key_in img.now page i)) (cost choice p (key_in img.now page i)) out.new t.new }
{
    let k = pages::key_words(img, page, i);
    if !regions::spans(choice, p, k.start, k.end) {
        return;
    }
    walk_list(img, k.head, choice, p, task, out, t);
}

// The lists of an inner page, key by key from the left, up to the first key beyond p, whose list may hold ancestors too. Outer regions stand with lower keys, so they are met first.
pub fn page_lists(
    img: &[u32],
    page: u32,
    choice: Choice,
    p: u32,
    task: Task,
    out: &mut [u32],
    t: &mut Tally,
)
    requires page_bound { fill_of (page_of img.now page) ≤ 8 }
    requires small { Small 30000 t.old }
    ensures { Tallied task out.old t.old (lists_met img.now choice p page) (lists_looked img.now choice p page) out.new t.new }
{
    let n = pages::fill(img, page) as usize;
    for i in 0..n {
        key_list(img, page, i, choice, p, task, out, t);
        if p < pages::key_number(img, page, i) {
            return;
        }
    }
}
