// SEATS: what is decided of one seat by value, and whether the eight together may be served. The calls on the desk read, ask here, and store.
#![tactic(auto)]

ghost use Rattle.std.specs.Prelude.{◌≡◌, ◌+◌, ◌*◌, ◌≤◌, length};
ghost use Rattle.regions.specs.Limits.{pair_width};
ghost use Rattle.regions.specs.Refusals.{number_told};
ghost use Rattle.regions.specs.Desk.{mark_fits, seat_fits, desk_fits, limit_asked};
ghost use Rattle.seats.specs.Steps.{Opens, Closes, seat_left, asked_no, rounds_no, moved, mark_read};

use regions::{Kind, Mark, Open, Refusal, Seat, State};

// RANGES. Whether a mark's two starts lie in the seat's account.
fn mark_fits(account: u32, mark: Mark) -> bool
    ensures { result ≡ mark_fits account mark }
{
    match mark {
        Mark::Fresh => true,
        Mark::Last(a, d) => regions::account_of(a) == account && regions::account_of(d) == account,
    }
}

// An open seat's ranges.
fn seat_fits(s: Seat) -> bool
    ensures { result ≡ seat_fits s }
{
    match s.state {
        State::Closed => true,
        State::Open(o) => {
            // test by test, and no chain of four `&&`, whose branches a proof would have to tell apart
            if regions::LAST_ACCOUNT < o.account {
                return false;
            }
            if o.limit < 1 {
                return false;
            }
            if regions::MOST_A_ROUND < o.limit {
                return false;
            }
            mark_fits(o.account, o.mark)
        }
    }
}

// Eight seats, none of which breaks its ranges.
pub fn desk_fits(desk: &[Seat]) -> bool
    ensures { result ≡ desk_fits desk.now }
{
    desk.len() == regions::SEAT_COUNT && desk.iter().all(|s| seat_fits(*s))
}

// OPENING AND CLOSING. Whoever asks for limit 0 takes the house's.
fn limit_asked(limit: u32) -> u32
    ensures { result ≡ limit_asked limit }
{
    if limit == 0 {
        return regions::HOUSE_LIMIT;
    }
    limit
}

// The seat as it is opened: SEAT, ACCOUNT, LIMIT.
pub fn opens(s: Seat, account: u32, kind: Kind, limit: u32) -> Result<Seat, Refusal>
    ensures { Opens s account kind limit (number_told result) (seat_left s result) }
{
    match s.state {
        State::Open(_) => Err(Refusal::Seat), // somebody sits there
        State::Closed => {
            if regions::LAST_ACCOUNT < account {
                return Err(Refusal::Account);
            }
            if regions::MOST_A_ROUND < limit {
                return Err(Refusal::Limit);
            }
            Ok(Seat {
                state: State::Open(Open {
                    account,
                    kind,
                    limit: limit_asked(limit),
                    mark: Mark::Fresh,
                }),
            })
        }
    }
}

// The seat as it is closed: SEAT. The mark is forgotten.
pub fn closes(s: Seat) -> Result<Seat, Refusal>
    ensures { Closes s (number_told result) (seat_left s result) }
{
    match s.state {
        State::Closed => Err(Refusal::Seat), // nobody sits there
        State::Open(_) => Ok(regions::closed_seat()),
    }
}

// A ROUND: IMAGE, then DESK.
pub fn may_round(images: bool, desk: bool, words: usize) -> Result<(), Refusal>
    ensures { number_told result ≡ rounds_no images desk words }
{
    if !images {
        return Err(Refusal::Image);
    }
    if !desk {
        return Err(Refusal::Desk);
    }
    if words != regions::BUFFER_WORDS {
        return Err(Refusal::Desk);
    }
    Ok(())
}

// How many pairs an open seat is handed in a turn, at most.
pub fn pairs_a_turn(o: Open) -> usize
    ensures { result ≡ o.limit }
{
    o.limit as usize
}

// The mark behind n pairs that stand in the words from `first` on: read back from the last of them, or as it was where there is none.
pub fn mark_behind(mark: Mark, words: &[u32], first: usize, n: usize) -> Mark
    requires { first + pair_width * n ≤ length words.now }
    ensures { result ≡ mark_read mark words.now first n }
{
    if n == 0 {
        return mark;
    }
    let last = first + regions::PAIR_WIDTH * (n - 1);
    Mark::Last(words[last], words[last + 2])
}

// An open seat with its mark moved on.
pub fn moved(o: Open, mark: Mark) -> Seat
    ensures { result ≡ moved o mark }
{
    Seat {
        state: State::Open(Open { mark, ..o }),
    }
}

// A PART: whether count pairs of one seat's part may be asked for: SEAT, LIMIT.
pub fn may_ask(s: Seat, count: u32) -> Result<(), Refusal>
    ensures { number_told result ≡ asked_no s.state count }
{
    match s.state {
        State::Closed => Err(Refusal::Seat), // it has no part
        State::Open(o) => {
            if o.limit < count {
                return Err(Refusal::Limit);
            }
            Ok(())
        }
    }
}
