// What an image holds and what makes it valid stands in specs/, the laws in proofs/. There is no code here but this.
#![tactic(auto)]

ghost use Rattle.std.specs.Prelude.{◌≡◌};
ghost use Rattle.pages.specs.Layout.{image_words};

pub fn image_words() -> usize
    ensures { result ≡ image_words }
{
    pages::IMAGE_WORDS
}
