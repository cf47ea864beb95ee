// A SEAT'S TURN in a round: its next pairs into its own words of the buffer. And all eight turns.
#![tactic(auto)]

ghost use Rattle.regions.specs.Desk.{open_at};
ghost use Rattle.image.specs.Read.{set_of};
ghost use Rattle.turns.specs.Steps.{MayTurn, Hands, Turns, MayServe, Serves};

use regions::{Open, Seat, State};

// Hands an open seat its next pairs: its part of the buffer, as long as its limit, is lent on to the join's writer, which tells how many it wrote.
fn hand(outer: &[u32], inner: &[u32], o: Open, buffer: &mut [u32], i: usize) -> usize
    requires { MayTurn outer.now inner.now (open_at o) buffer.old i }
    ensures { Hands (set_of outer.now) (set_of inner.now) o buffer.old i result buffer.new }
{
    let a = regions::SEAT_WIDTH * i;
    let e = a + regions::PAIR_WIDTH * seats::pairs_a_turn(o);
    join::pairs_past(
        outer,
        inner,
        o.account,
        o.kind,
        o.mark,
        &mut buffer[a..e],
        false,
    )
}

// A seat's turn: its next pairs into its own words, and its mark moved behind what it was handed. It tells how many they are.
pub fn seat_turn(outer: &[u32], inner: &[u32], s: &mut Seat, buffer: &mut [u32], i: usize) -> u32
    requires { MayTurn outer.now inner.now s.old buffer.old i }
    ensures { Turns (set_of outer.now) (set_of inner.now) s.old buffer.old i s.new result buffer.new }
{
    let State::Open(o) = s.state else {
        return 0;
    };
    let n = hand(outer, inner, o, buffer, i);
    let mark = seats::mark_behind(o.mark, buffer, regions::SEAT_WIDTH * i, n);
    *s = seats::moved(o, mark);
    n as u32
}

// Serves the seats from 0 to 7, each into its own words of the buffer, and tells the eight counts.
pub fn serve(
    outer: &[u32],
    inner: &[u32],
    desk: &mut [Seat],
    buffer: &mut [u32],
) -> [u32; regions::SEAT_COUNT]
    requires { MayServe outer.now inner.now desk.old buffer.old }
    ensures { Serves (set_of outer.now) (set_of inner.now) desk.old buffer.old desk.new result buffer.new }
{
    let mut counts = [0; regions::SEAT_COUNT];
    for i in 0..regions::SEAT_COUNT {
        counts[i] = seat_turn(outer, inner, &mut desk[i], buffer, i);
    }
    counts
}
