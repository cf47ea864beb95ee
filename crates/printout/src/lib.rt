// Pairs of the join as text: into a lent buffer, and from a mark on in batches, so that a join of any size is printed with little room.
#![tactic(auto)]

ghost use Rattle.std.specs.Prelude.{◌≡◌, ◌+◌, ◌*◌, ◌≤◌, T, length, take, drop};
ghost use Rattle.regions.specs.Limits.{buffer_words, last_account};
ghost use Rattle.regions.specs.Calls.{joined};
ghost use Rattle.regions.specs.declared.Kind.TheVariants.{Ancestor};
ghost use Rattle.image.specs.Read.{set_of};
ghost use Rattle.image.specs.Valid.{valid};
ghost use Rattle.printout.specs.Printed.{PutsPairs, PutsBatch};

use regions::{Kind, Mark};

// The four words of pair i.
fn pair_at(words: &[u32], i: usize) -> [u32; 4]
    requires { 4 * i + 4 ≤ length words.now }
    ensures { result ≡ take 4 (drop (4 * i) words.now) }
{
    let at = 4 * i;
    [words[at], words[at + 1], words[at + 2], words[at + 3]]
}

// THE TEXT OF n PAIRS, a line each, from the buffer's start on: how many bytes it takes. A line takes at most 44.
pub fn put_pairs(words: &[u32], n: usize, out: &mut [u8]) -> usize
    requires { (4 * n ≤ length words.now) × (44 * n ≤ length out.old) }
    ensures { PutsPairs words.now n out.old result out.new }
{
    let mut at: usize = 0;
    for i in 0..n {
        at = lines::put_line(out, at, pair_at(words, i), 4);
    }
    at
}

// A batch: how many bytes and pairs it has, and the mark behind them.
#[derive(Clone, Copy, Debug, PartialEq, Eq)]
pub struct Batch {
    pub bytes: usize,
    pub pairs: usize,
    pub mark: Mark,
}

// THE NEXT LINES of an account's ancestor join, past a mark: the text of as many pairs as the lent words hold, 256 of them.
pub fn next_lines(
    outer: &[u32],
    inner: &[u32],
    account: u32,
    mark: Mark,
    words: &mut [u32],
    out: &mut [u8],
) -> Batch
    requires both_valid { T (valid outer.now) × T (valid inner.now) }
    requires account_le_last_account { account ≤ last_account }
    requires words_len { (length words.old ≡ buffer_words) × (11264 ≤ length out.old) }
    ensures { PutsBatch (joined (set_of outer.now) (set_of inner.now) account Ancestor) mark words.old out.old result.bytes result.pairs result.mark words.new out.new }
{
    let n = join::pairs_past(outer, inner, account, Kind::Ancestor, mark, words, false);
    Batch {
        bytes: put_pairs(words, n, out),
        pairs: n,
        mark: seats::mark_behind(mark, words, 0, n),
    }
}
