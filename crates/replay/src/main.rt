// Plays scripts of public calls and prints their answers. Each argument names a script, played from a fresh store; without arguments standard input is one.
// A script is at most 1,048,576 bytes, one command a line; the crate `script` has the commands. At a line that is none, `script N` is printed, N its number
// from 1, and the script ends there; of one that is too long only `script 0`.
#![tactic(auto)]

mod asked;
mod sets;

ghost use Rattle.std.specs.Prelude.{◌≤◌, length};

use regions::Seat;
use script::{Call, Command, Group};
use std::io;
use std::io::Read;
use std::rt::{Env, Files};

// What is kept beside the lent words: how many words of each image are lent, and the desk.
#[derive(Drop)]
struct Store {
    outer: usize,
    inner: usize,
    seats: [Seat; regions::SEAT_COUNT],
}

impl Store {
    fn fresh() -> Self {
        Store {
            outer: pages::IMAGE_WORDS,
            inner: pages::IMAGE_WORDS,
            seats: [regions::closed_seat(); regions::SEAT_COUNT],
        }
    }

    // Lends n words of an image from now on.
    fn resize(&mut self, set: u32, n: u32) {
        if set == 0 {
            self.outer = n as usize;
        } else {
            self.inner = n as usize;
        }
    }
}

// A call on one image: its first words are lent.
fn on_one(
    rt: &impl Print,
    img: &mut [u32],
    size: usize,
    c: Command,
    given: &[u32],
    answers: &mut [u32],
) -> io::Result<()> {
    let lent = sets::least(size, img.len());
    sets::call(rt, &mut img[..lent], c.call, c.numbers, given, answers)
}

fn on_a_set(
    rt: &impl Print,
    outer: &mut [u32],
    inner: &mut [u32],
    given: &[u32],
    store: &Store,
    c: Command,
    answers: &mut [u32],
) -> io::Result<()> {
    if c.numbers[0] == 0 {
        on_one(rt, outer, store.outer, c, given, answers)
    } else {
        on_one(rt, inner, store.inner, c, given, answers)
    }
}

// The image that a number names.
fn named<'a>(set: u32, outer: &'a [u32], inner: &'a [u32]) -> &'a [u32] {
    if set == 0 { outer } else { inner }
}

// A call on two images, which may be one and the same.
fn on_two<'a>(
    rt: &impl Print,
    outer: &'a [u32],
    inner: &'a [u32],
    buffer: &mut [u32],
    answers: &mut [u32],
    seats: &mut [Seat],
    c: Command,
) -> io::Result<()> {
    let x = named(c.numbers[0], outer, inner);
    let y = named(c.numbers[1], outer, inner);
    if c.call == Call::Join {
        sets::join(rt, x, y, c.numbers, answers)
    } else {
        asked::round(rt, x, y, seats, buffer)
    }
}

// A command on the store itself.
fn on_store(
    outer: &mut [u32],
    inner: &mut [u32],
    given: &mut [u32],
    store: &mut Store,
    c: Command,
) {
    let n = c.numbers;
    match c.call {
        Call::Give => sets::put(given, n[0], n[1]),
        Call::Word => sets::put_word(outer, inner, n),
        _ => store.resize(n[0], n[1]),
    }
}

// One command.
fn play(
    rt: &impl Print,
    outer: &mut [u32],
    inner: &mut [u32],
    buffer: &mut [u32],
    given: &mut [u32],
    answers: &mut [u32],
    store: &mut Store,
    c: Command,
) -> io::Result<()> {
    match c.group {
        Group::Image => on_a_set(rt, outer, inner, given, store, c, answers),
        Group::Pair => {
            let a = sets::least(store.outer, outer.len());
            let b = sets::least(store.inner, inner.len());
            on_two(
                rt,
                &outer[..a],
                &inner[..b],
                buffer,
                answers,
                &mut store.seats,
                c,
            )
        }
        Group::Desk => asked::call(rt, &mut store.seats, buffer, c),
        Group::Store => {
            on_store(outer, inner, given, store, c);
            Ok(())
        }
    }
}

// The line of a script at which it ends.
fn no_command(rt: &impl Print, number: u32) -> io::Result<()> {
    console::text(rt, b"script ")?;
    console::line(rt, &[number])
}

// Plays a script.
fn play_all(rt: &impl Print, text: &[u8]) -> io::Result<()>
    requires { length text.now ≤ 1048576 }
{
    let mut outer = [4294967295u32; 12300];
    let mut inner = [4294967295u32; 12300];
    let mut buffer = [0u32; regions::BUFFER_WORDS];
    let mut given = [0u32; 4096];
    let mut answers = [0u32; 4096];
    let mut store = Store::fresh();
    let mut line: u32 = 0;
    let mut at: usize = 0;
    // (the lines are of many lengths: what counts them is not what steps over them)
    while at < text.len() {
        line += 1;
        let end = script::line_end(text, at);
        if end == text.len() {
            return no_command(rt, line);
        }
        let Some(c) = script::read(&text[at..end]) else {
            return no_command(rt, line);
        };
        play(
            rt,
            &mut outer,
            &mut inner,
            &mut buffer,
            &mut given,
            &mut answers,
            &mut store,
            c,
        )?;
        at = end + 1;
    }
    Ok(())
}

// Reads a script to its end and plays it. The room has one byte more than a script may have, so that one too long shows.
fn play_from(rt: &impl Print, input: &mut impl Read, room: &mut [u8; 1048577]) -> io::Result<()> {
    let n = console::read_full(input, room)?;
    if 1048576 < n {
        return no_command(rt, 0);
    }
    let text: &[u8] = room;
    play_all(rt, &text[0..n])
}

fn play_file(rt: &impl Print, input: &mut impl Read) -> io::Result<()> {
    let mut room = [0u8; 1048577];
    play_from(rt, input, &mut room)
}

// Plays the script that argument i names. Where it cannot be opened, that is told on standard error, and the next one is played.
fn play_named<R: Env + Files + Print>(rt: &R, err: &impl Print, i: usize) -> io::Result<()> {
    let mut name = [0u8; 4096];
    let n = console::argument(rt, i, &mut name);
    match console::open_read(rt, &name[0..n]) {
        Ok(mut file) => play_file(rt, &mut file),
        Err(_) => {
            console::text(err, b"no script ")?;
            console::text(err, &name[0..n])?;
            console::text(err, b"\n")
        }
    }
}

fn main(rt: HostRuntime) -> io::Result<()> {
    let n = console::argument_count(&rt);
    if n < 2 {
        return play_file(&rt, &mut rt.reader());
    }
    for i in 1..n {
        play_named(&rt, &rt.stderr(), i)?;
    }
    Ok(())
}
