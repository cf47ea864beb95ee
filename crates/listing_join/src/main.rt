// Reads a listing and prints the ancestor join of its two sets, or `refused` with the number and line of the first refusal. With no arguments the listing is standard
// input. Otherwise each argument names a listing, and each is answered in turn; `-` is standard input.
#![tactic(auto)]

ghost use Rattle.std.specs.Prelude.{◌≡◌, ◌≤◌, T, length};
ghost use Rattle.regions.specs.Limits.{buffer_words, last_account};
ghost use Rattle.image.specs.Valid.{valid};

use form::RefusedLine;
use regions::Mark;
use std::io;
use std::io::Read;
use std::rt::{Env, Files};

// The first refusal, by its number, and its line.
fn refused(rt: &impl Print, at: RefusedLine) -> io::Result<()> {
    let number = u32::from(at.refusal);
    let line = at.line;
    println!(rt; "refused {number} {line}")
}

// One account's pairs, batch after batch until one is empty.
fn print_batches(
    rt: &impl Print,
    outer: &[u32],
    inner: &[u32],
    account: u32,
    pairs: &mut [u32],
    out: &mut [u8],
) -> io::Result<()>
    requires both_valid { T (valid outer.now) × T (valid inner.now) }
    requires account_le_last_account { account ≤ last_account }
    requires pairs_len { (length pairs.old ≡ buffer_words) × (length out.old ≡ 11264) }
{
    let mut mark = Mark::Fresh;
    loop {
        let b = printout::next_lines(outer, inner, account, mark, pairs, out);
        if b.pairs == 0 {
            return Ok(());
        }
        let n = b.bytes;
        console::text(rt, &out[..n])?;
        mark = b.mark;
    }
}

// The same with room for a batch: 256 pairs, whose lines have at most 44 bytes each.
fn print_account(rt: &impl Print, outer: &[u32], inner: &[u32], account: u32) -> io::Result<()>
    requires both_valid { T (valid outer.now) × T (valid inner.now) }
    requires account_le_last_account { account ≤ last_account }
{
    let mut pairs = [0u32; regions::BUFFER_WORDS];
    let mut out = [0u8; 11264];
    print_batches(rt, outer, inner, account, &mut pairs, &mut out)
}

// The join, account after account.
fn print_join(rt: &impl Print, outer: &[u32], inner: &[u32]) -> io::Result<()>
    requires { T (valid outer.now) × T (valid inner.now) }
{
    for account in 0..=regions::LAST_ACCOUNT {
        print_account(rt, outer, inner, account)?;
    }
    Ok(())
}

// One listing's answer.
fn answer(rt: &impl Print, listing: &[u8]) -> io::Result<()> {
    let mut outer = [0u32; pages::IMAGE_WORDS];
    let mut inner = [0u32; pages::IMAGE_WORDS];
    match listing::read_listing(listing, &mut outer, &mut inner) {
        Ok(()) => print_join(rt, &outer, &inner),
        Err(at) => refused(rt, at),
    }
}

// The listing that a file holds, with one byte more than a listing may have, so that a longer one is seen to be too long.
fn answer_file(rt: &impl Print, file: &mut impl Read) -> io::Result<()> {
    let mut bytes = [0u8; 65537];
    let n = console::read_full(file, &mut bytes)?;
    answer(rt, &bytes[..n])
}

fn is_dash(name: &[u8]) -> bool {
    name.len() == 1 && name[0] == b'-'
}

// The listing that an argument names. Where it cannot be opened, that is told on standard error, and the next one is answered.
fn answer_named<R: Files + Input + Print>(rt: &R, err: &impl Print, name: &[u8]) -> io::Result<()> {
    if is_dash(name) {
        return answer_file(rt, &mut rt.reader());
    }
    match console::open_read(rt, name) {
        Ok(mut file) => answer_file(rt, &mut file),
        Err(why) => console::fail(err, name, why),
    }
}

fn answer_argument<R: Env + Files + Input + Print>(
    rt: &R,
    err: &impl Print,
    i: usize,
) -> io::Result<()> {
    let mut name = [0u8; 4096];
    let n = console::argument(rt, i, &mut name);
    answer_named(rt, err, &name[..n])
}

fn main(rt: HostRuntime) -> io::Result<()> {
    let count = console::argument_count(&rt);
    if count < 2 {
        return answer_file(&rt, &mut rt.reader());
    }
    for i in 1..count {
        answer_argument(&rt, &rt.stderr(), i)?;
    }
    Ok(())
}
