// Words: the readers that every other crate leans on.
#![tactic(auto)]

ghost use Rattle.std.specs.Prelude.{◌≡◌, ◌<◌, get_or};

// A word as a size, for sums that must not wrap.
pub fn wide(x: u32) -> usize
    ensures { result ≡ x }
{
    x as usize
}

// Word i, or 0 past the end: a reader that needs no bound, so that hostile places can be followed.
pub fn word(w: &[u32], i: usize) -> u32
    ensures { result ≡ get_or w.now i 0 }
{
    if i < w.len() { w[i] } else { 0 }
}

// The same as a size.
pub fn wide_word(w: &[u32], i: usize) -> usize
    ensures { (result ≡ get_or w.now i 0) × (result < 4294967296) }
{
    wide(word(w, i))
}
