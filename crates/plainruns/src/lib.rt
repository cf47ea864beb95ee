// This crate is specs and proofs only: what holds of every history of calls. A crate has some code, so it has this function.
#![tactic(auto)]

ghost use Rattle.std.specs.Prelude.{◌≡◌};

pub fn nothing() -> u32
    ensures { result ≡ 0 }
{
    0
}
