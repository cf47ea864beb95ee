// The XR-tree on plain values: what it is stands in specs/, its laws in proofs/. There is no code here but this.
#![tactic(auto)]

ghost use Rattle.std.specs.Prelude.{◌≡◌};

pub fn least_fill() -> u32
    ensures { result ≡ 4 }
{
    4
}
