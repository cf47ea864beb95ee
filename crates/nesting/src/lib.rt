// One region after the other, in ascending start: whether it is well formed, nests in those around it with a level above theirs, and fits in what is left of its account's share.
#![tactic(auto)]

ghost use Rattle.std.specs.Prelude.{ℕ, ◌≡◌, ◌<◌, ◌≤◌, List, [], get_or};
ghost use Rattle.nesting.specs.Pass.{pop, stack_of, enter, going};

use regions::{Region, Shares};

// How far a pass has come: where those regions end that have not ended, outermost first, with their levels, in the first `top` places; and what is left of
// each account's share. Levels rise inwards, so that the one in place k is above k, and the next place is still there.
#[derive(Clone, Copy)]
pub struct Pass {
    pub ends: [u32; regions::MOST_AROUND],
    pub levels: [u8; regions::MOST_AROUND],
    pub top: usize,
    pub left: Shares,
    pub ghost above: { (k : ℕ) → k < top → k < get_or levels k 0 },
}

impl Pass {
    ghost use Rattle.nesting.specs.State.{state_of, told};

    // Before the first region: nothing is around yet.
    pub fn new(left: Shares) -> Pass
        ensures { state_of result ≡ going [] left }
    {
        Pass {
            ends: [0; regions::MOST_AROUND],
            levels: [0; regions::MOST_AROUND],
            top: 0,
            left,
        }
    }

    // How many are left once those that end before s are closed. (Their levels are closed with them, and not looked at.)
    fn popped(&self, s: u32) -> usize
        ensures { (result ≤ self.now.top) × (stack_of self.now.ends self.now.levels result ≡ pop s (stack_of self.now.ends self.now.levels self.now.top)) }
    {
        for t in (0..self.top).rev() {
            if s <= self.ends[t] {
                return t + 1;
            }
        }
        0
    }

    // The region that comes next. Of those around it the innermost ends first and has the highest level, so that it alone is asked.
    pub fn enter(&mut self, r: Region) -> Option<()>
        ensures { told result self.new ≡ enter r (state_of self.old) }
    {
        if !regions::well_formed(r) {
            return None;
        }
        let account = regions::account_of(r.start) as usize;
        let share = self.left[account];
        if share == 0 {
            return None;
        }
        let level = r.level as u8;
        let t = self.popped(r.start);
        if 0 < t && (self.ends[t - 1] <= r.end || level <= self.levels[t - 1]) {
            return None;
        }
        self.ends[t] = r.end;
        self.levels[t] = level;
        self.left[account] = share - 1;
        self.top = t + 1;
        Some(())
    }
}
