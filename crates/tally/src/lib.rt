// What a search has met so far: how many ancestors it took, the steps it made, the last one taken. Each ancestor that it meets is counted here, and written where there is room.
#![tactic(auto)]

ghost use Rattle.std.specs.Prelude.{◌≡◌, [], ◌∷◌};
ghost use Rattle.tally.specs.Tasks.{accepts};
ghost use Rattle.tally.specs.Tallies.{Tallied, stepped, fresh_tally, Small};

use regions::Region;

// Which ancestors are taken: all; those of the level one less. That is no optional level: a search has one of two tasks, and each is called by its name.
#[derive(Clone, Copy, Debug, PartialEq, Eq)]
pub enum Task {
    List,
    Above(u32),
}

impl Task {
    // Whether the task takes an ancestor.
    fn takes(self, a: Region) -> bool
        ensures { result ≡ accepts self a }
    {
        match self {
            Task::List => true,
            Task::Above(level) => regions::is_above(level, a),
        }
    }
}

// How many ancestors were taken, the steps made, and the last one taken.
#[derive(Clone, Copy, Debug, PartialEq, Eq)]
pub struct Tally {
    pub total: usize,
    pub steps: usize,
    pub last: Option<Region>,
}

impl Tally {
    // Where a search begins.
    pub fn fresh() -> Self
        ensures { result ≡ fresh_tally }
    {
        Tally {
            total: 0,
            steps: 0,
            last: None,
        }
    }

    // One page or one stab record looked at.
    pub fn step(&mut self)
        requires { Small 50000 self.old }
        ensures { self.new ≡ stepped self.old }
    {
        self.steps += 1;
    }

    // Meets one ancestor: where it is asked for, it is written and counted.
    pub fn visit(&mut self, task: Task, a: Region, out: &mut [u32])
        requires { Small 50000 self.old }
        ensures { Tallied task out.old self.old (a ∷ []) 0 out.new self.new }
    {
        if !task.takes(a) {
            return;
        }
        answers::put_region(out, self.total, a);
        self.total += 1;
        self.last = Some(a);
    }
}
