// That an image's words hold a given tree: the definition stands in specs/, its laws in proofs/. There is no code here but this.
#![tactic(auto)]

ghost use Rattle.std.specs.Prelude.{◌≡◌};

pub fn room_of_a_page() -> u32
    ensures { result ≡ 9 }
{
    9
}
