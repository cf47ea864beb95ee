// The console of the programs: words from a reader, mostly standard input; numbers and text on a printer, mostly standard output; the arguments and the files that
// they name. A read or a write that fails is the call's error, and nothing is tried again.
#![tactic(auto)]

ghost use Rattle.std.specs.Prelude.{ℕ, ◌<◌, ◌≤◌, length, take, IfOk, OnErr};
ghost use Rattle.std.specs.Io.KnownBytes.{Consumes, IsAtEnd};

use std::env::FillError;
use std::fmt::InlineText;
use std::fs::File;
use std::io;
use std::io::{ErrorKind, Read};
use std::rt::{Env, Files};

// Reads until the room is full or the input ends, and answers how many bytes it put at the start of the room. Where a read fails, what was read before stands there.
pub fn read_full<R: Read>(input: &mut R, room: &mut [u8]) -> io::Result<usize>
    ensures within { IfOk result (λ n. n ≤ length room.new) }
    ensures bytes { IfOk result (λ n. Consumes (R.remaining input.old) (R.remaining input.new) (take n room.new)) }
    ensures end { IfOk result (λ n. n < length room.new → IsAtEnd (R.remaining input.new)) }
    ensures none_lost { OnErr result ((k : ℕ) × Consumes (R.remaining input.old) (R.remaining input.new) (take k room.new)) }
{
    let mut done: usize = 0;
    // No count of an index: each read fills as much as it likes.
    while done < room.len() {
        let n = input.read(&mut room[done..])?;
        if n == 0 {
            break;
        }
        done += n;
    }
    Ok(done)
}

// The next word of the input, four bytes, low byte first; 0 where the input has ended.
pub fn next_word(input: &mut impl Read) -> io::Result<u32> {
    let mut four = [0u8; 4];
    read_full(input, &mut four)?;
    Ok(u32::from_le_bytes(four))
}

// The next words of the input, as many as there is room for.
pub fn next_words(input: &mut impl Read, room: &mut [u32]) -> io::Result<()> {
    for word in room.iter_mut() {
        *word = next_word(input)?;
    }
    Ok(())
}

pub fn text(rt: &impl Print, t: &[u8]) -> io::Result<()> {
    rt.write_all(t)
}

pub fn number(rt: &impl Print, n: usize) -> io::Result<()> {
    rt.print(n)
}

// Up to nine numbers on a line, which is put together and written by one call: a macro of std would write number by number, which is slower.
pub fn line(rt: &impl Print, numbers: &[u32]) -> io::Result<()>
    requires { length numbers.now ≤ 9 }
{
    let mut bytes = [0u8; 99];
    let n = numbers.len();
    let mut at: usize = 0;
    for i in 0..n {
        at = lines::put_number(&mut bytes, at, numbers[i]);
        bytes[at] = lines::break_behind(n - (i + 1));
        at += 1;
    }
    text(rt, &bytes[..at])
}

// The first n lines of four words, regions or pairs, of which the slice may hold fewer.
pub fn rows(rt: &impl Print, words: &[u32], n: usize) -> io::Result<()> {
    let mut at: usize = 0;
    for _ in 0..n {
        if words.len() - at < 4 {
            return Ok(());
        }
        let end = at + 4;
        line(rt, &words[at..end])?;
        at = end;
    }
    Ok(())
}

// A count as a word. No count of a program comes near what a word holds.
pub fn narrow(n: usize) -> u32 {
    u32::try_from(n).unwrap_or(u32::MAX)
}

// How many arguments the program was started with, its own name among them. Without room an argument is only looked for.
pub fn argument_count(rt: &impl Env) -> usize {
    for i in 0..usize::MAX {
        if let Err(FillError::NotPresent) = rt.arg(i, &mut []) {
            return i;
        }
    }
    usize::MAX
}

// Puts argument i at the start of the room, and answers its length, or 0 where it is missing or longer than the room.
pub fn argument(rt: &impl Env, i: usize, room: &mut [u8]) -> usize
    ensures { result ≤ length room.new }
{
    rt.arg(i, room).unwrap_or(0)
}

// Opens the file of a name for reading. The name has to be text in UTF-8, since std opens no other.
pub fn open_read<R: Files>(rt: &R, name: &[u8]) -> io::Result<R::File> {
    match str::from_utf8(name) {
        Ok(path) => File::open(rt, path),
        Err(_) => Err(io::Error::from(ErrorKind::InvalidFilename)),
    }
}

// What an error's text has in front of the number that the system gives it.
fn before_number(told: &str) -> &str {
    match told.split_once(" (os error ") {
        Some((words, _)) => words,
        None => told,
    }
}

// Tells in a line what failed, as the caller names it, and why, in the system's words.
pub fn fail(rt: &impl Print, what: &[u8], why: io::Error) -> io::Result<()> {
    let told = InlineText::<128>::of(why);
    text(rt, what)?;
    text(rt, b": ")?;
    text(rt, before_number(told.as_str()).as_bytes())?;
    text(rt, b"\n")
}
