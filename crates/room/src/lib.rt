// How far a tree may grow and shrink while a save or delete is under way.
#![tactic(auto)]

ghost use Rattle.std.specs.Prelude.{◌≡◌};

pub fn least_fill() -> u32
    ensures { result ≡ 4 }
{
    4
}
