// How far the walk over an image's pages has come, by value: one page, leaf, start or key after the other.
#![tactic(auto)]

ghost use Rattle.std.specs.Prelude.{◌≡◌, ◌<◌};
ghost use Rattle.passes.specs.Run.{step_page, step_leaf, step_code, finished};

// How far a pass has come: `link` is the place that the leaf before leads to plus 1 (0 before the first leaf), `low` the least code that may come
// next, `left` the number of pages in use that are still to come. Where a test fails there is no such state, and the pass is over.
#[derive(Clone, Copy, Debug, PartialEq, Eq)]
pub struct Passed {
    pub link: usize,
    pub low: usize,
    pub left: usize,
}

impl Passed {
    // Past a page, of which one less is left to come: counting down, no sum can wrap, and a tree that names a page twice ends the pass.
    pub fn page(self, right: bool) -> Option<Passed>
        ensures { result ≡ step_page right self }
    {
        if !right || self.left == 0 {
            return None;
        }
        Some(Passed {
            left: self.left - 1,
            ..self
        })
    }

    // Past the head of a leaf, to which the leaf before must lead.
    pub fn leaf(self, place: u32, next: u32) -> Option<Passed>
        ensures { result ≡ step_leaf place next self }
    {
        if self.link != 0 && self.link != place as usize + 1 {
            return None;
        }
        Some(Passed {
            link: next as usize + 1,
            ..self
        })
    }

    // Past a start (code 2 x + 1) or a key (code 2 x): codes must rise.
    pub fn code(self, c: usize) -> Option<Passed>
        requires { c < 17179869184 }
        ensures { result ≡ step_code c self }
    {
        if c < self.low {
            return None;
        }
        Some(Passed { low: c + 1, ..self })
    }

    // Whether a pass that is over found everything right: the last leaf leads to no other, and no page in use is left.
    pub fn is_finished(self) -> bool
        ensures { result ≡ finished self }
    {
        self.link == 1 && self.left == 0
    }
}
