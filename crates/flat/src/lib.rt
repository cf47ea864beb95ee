// A seat and a desk in plain numbers, as they go over the border to C and Rust and back.
// Kinds, choices and refusals are numbers here, and flags stand beside values: the C interface.
#![tactic(auto)]

ghost use Rattle.std.specs.Prelude.{◌≡◌, map};
ghost use Rattle.regions.specs.Numbers.{unless};
ghost use Rattle.flat.specs.Numbers.{kind_of, choice_of_number, kind_number, mark_of, seat_of_numbers};
ghost use Rattle.flat.specs.Seats.{seat_of, flat_seat, flat_open};

use regions::{Choice, Kind, Mark, Open, Seat, State};

// For whoever has only numbers to hand. A join's kind: 0 is by ancestor, 2 by ancestor or self, all else by parent.
pub fn kind_of(number: u32) -> Kind
    ensures { result ≡ kind_of number }
{
    if number == 0 {
        return Kind::Ancestor;
    }
    if number == 2 {
        return Kind::AncestorOrSelf;
    }
    Kind::Parent
}

// A search's choice: 0 is strict, all else with self.
pub fn choice_of(number: u32) -> Choice
    ensures { result ≡ choice_of_number number }
{
    if number == 0 {
        return Choice::Strict;
    }
    Choice::WithSelf
}

pub fn kind_number(kind: Kind) -> u32
    ensures { result ≡ kind_number kind }
{
    match kind {
        Kind::Ancestor => 0,
        Kind::Parent => 1,
        Kind::AncestorOrSelf => 2,
    }
}

// A mark: none where marked is 0, and then a and d mean nothing.
fn mark_of(marked: u32, a: u32, d: u32) -> Mark
    ensures { result ≡ mark_of marked a d }
{
    if marked == 0 {
        return Mark::Fresh;
    }
    Mark::Last(a, d)
}

// The seat that seven numbers mean, whatever they are: none of the desk's ranges is asked for.
pub fn seat_of_numbers(
    opened: u32,
    account: u32,
    kind: u32,
    limit: u32,
    marked: u32,
    a: u32,
    d: u32,
) -> Seat
    ensures { result ≡ seat_of_numbers opened account kind limit marked a d }
{
    if opened == 0 {
        return regions::closed_seat();
    }
    Seat {
        state: State::Open(Open {
            account,
            kind: kind_of(kind),
            limit,
            mark: mark_of(marked, a, d),
        }),
    }
}

// A seat in numbers. Closed where opened is 0, and then the others mean nothing; without a mark where marked is 0, and then a and d mean nothing.
#[repr(C)]
#[derive(Clone, Copy)]
pub struct FlatSeat {
    pub opened: u32,
    pub account: u32,
    pub kind: u32,
    pub limit: u32,
    pub marked: u32,
    pub a: u32,
    pub d: u32,
}

#[repr(C)]
#[derive(Clone, Copy)]
pub struct FlatDesk {
    pub seats: [FlatSeat; regions::SEAT_COUNT],
}

// The seat that seven numbers mean.
impl From<FlatSeat> for Seat {
    ghost from_gives = { λ f s. s ≡ seat_of f };

    fn from(f: FlatSeat) -> Seat {
        seat_of_numbers(f.opened, f.account, f.kind, f.limit, f.marked, f.a, f.d)
    }
}

pub fn seats_of(f: [FlatSeat; regions::SEAT_COUNT]) -> [Seat; regions::SEAT_COUNT]
    ensures { result ≡ map seat_of f }
{
    // (By `map`, which hands the eight on from one array to the next, the calls of `capi` that open or close a seat or tell a part take more of the caller's stack, and more than a sixth more instructions.)
    let mut seats = [regions::closed_seat(); regions::SEAT_COUNT];
    for i in 0..regions::SEAT_COUNT {
        seats[i] = Seat::from(f[i]);
    }
    seats
}

fn flat_open(o: Open) -> FlatSeat
    ensures { result ≡ flat_open o }
{
    let kind = kind_number(o.kind);
    match o.mark {
        Mark::Fresh => FlatSeat {
            opened: 1,
            account: o.account,
            kind,
            limit: o.limit,
            marked: 0,
            a: 0,
            d: 0,
        },
        Mark::Last(a, d) => FlatSeat {
            opened: 1,
            account: o.account,
            kind,
            limit: o.limit,
            marked: 1,
            a,
            d,
        },
    }
}

// The seven numbers of a seat; a closed one's are 0.
impl From<Seat> for FlatSeat {
    ghost from_gives = { λ s f. f ≡ flat_seat s };

    fn from(s: Seat) -> FlatSeat {
        match s.state {
            State::Closed => FlatSeat {
                opened: 0,
                account: 0,
                kind: 0,
                limit: 0,
                marked: 0,
                a: 0,
                d: 0,
            },
            State::Open(o) => flat_open(o),
        }
    }
}

pub fn flat_desk(seats: [Seat; regions::SEAT_COUNT]) -> FlatDesk
    ensures { result.seats ≡ map flat_seat seats }
{
    let mut flat = [FlatSeat::from(regions::closed_seat()); regions::SEAT_COUNT];
    for i in 0..regions::SEAT_COUNT {
        flat[i] = FlatSeat::from(seats[i]);
    }
    FlatDesk { seats: flat }
}

// The desk that a call hands back: the one given where it is refused.
pub fn desk_left(number: u32, given: FlatDesk, seats: [Seat; regions::SEAT_COUNT]) -> FlatDesk
    ensures { result.seats ≡ unless number (map flat_seat seats) given.seats }
{
    if number == 0 {
        return flat_desk(seats);
    }
    given
}
