// The local steps of a save or delete.
#![tactic(auto)]

ghost use Rattle.std.specs.Prelude.{◌≡◌};

pub fn step_room() -> u32
    ensures { result ≡ 9 }
{
    9
}
