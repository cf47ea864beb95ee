// That a part of a tree stands rightly in an image, whatever stands around it: the definition is in specs/, its laws in proofs/. There is no code here but this.
#![tactic(auto)]

ghost use Rattle.std.specs.Prelude.{◌≡◌};
ghost use Rattle.pages.specs.Layout.{page_count};

pub fn page_places() -> u32
    ensures { result ≡ page_count }
{
    pages::PAGE_COUNT
}
