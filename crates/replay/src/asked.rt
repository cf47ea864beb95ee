// The calls on the desk, each with the numbers of its line and its answer printed. The eight seats are lent.
ghost use Rattle.std.specs.Prelude.{◌≡◌, length};

use regions::{Refusal, Seat};
use script::{Call, Command, Numbers};
use std::io;

// Writes one of the seats directly: the seat that the numbers mean, whatever they are.
fn place(seats: &mut [Seat], n: Numbers) {
    let i = n[0] as usize;
    if i < seats.len() {
        seats[i] = flat::seat_of_numbers(n[1], n[2], n[3], n[4], n[5], n[6], n[7]);
    }
}

// A call's number.
fn number(rt: &impl Print, answer: Result<(), Refusal>) -> io::Result<()> {
    console::line(rt, &[regions::number_told(answer)])
}

// A command on the desk alone.
pub fn call(rt: &impl Print, seats: &mut [Seat], buffer: &[u32], c: Command) -> io::Result<()> {
    let n = c.numbers;
    match c.call {
        Call::Place => {
            place(seats, n);
            Ok(())
        }
        Call::Part => part(rt, seats, buffer, n),
        Call::Seat => number(
            rt,
            desk::open_seat(seats, n[0], n[1], flat::kind_of(n[2]), n[3]),
        ),
        Call::Close => number(rt, desk::close_seat(seats, n[0])),
        _ => number(rt, desk::open_desk(seats)),
    }
}

// A part: its number, then its words.
fn part(rt: &impl Print, seats: &[Seat], buffer: &[u32], n: Numbers) -> io::Result<()> {
    number(rt, desk::asks_part(seats, buffer, n[0], n[1]))?;
    let words = desk::part(seats, buffer, n[0], n[1]);
    console::rows(rt, words, words.len() / 4)
}

// A round: its number and the eight counts, which are 0 where it is refused.
pub fn round(
    rt: &impl Print,
    outer: &[u32],
    inner: &[u32],
    seats: &mut [Seat],
    buffer: &mut [u32],
) -> io::Result<()> {
    let (number, c) = match desk::round(outer, inner, seats, buffer) {
        Ok(counts) => (0, counts),
        Err(refusal) => (u32::from(refusal), [0u32; regions::SEAT_COUNT]),
    };
    console::line(
        rt,
        &[number, c[0], c[1], c[2], c[3], c[4], c[5], c[6], c[7]],
    )
}
