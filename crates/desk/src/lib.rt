// The desk: eight partner seats lent together as a slice of structs. Each public call takes any slices, tests in its order, and answers with its refusal where one fails; a part's is told by `asks_part`.
// What is decided of a seat is decided in functions that take it by value; the calls on the lent slice read, call, store and return.
#![tactic(auto)]

ghost use Rattle.std.specs.Prelude.{◌≡◌, ◌&&◌, IfOk};
ghost use Rattle.regions.specs.Refusals.{number_told};
ghost use Rattle.image.specs.Valid.{valid};
ghost use Rattle.desk.specs.Promises.{OpensDesk, OpensSeat, ClosesSeat, Rounds, PartNumber, LendsPart, place_no, counts_told};

use regions::{Kind, Refusal, Seat};

// Opens the desk: eight closed seats, whatever stood there.
pub fn open_desk(desk: &mut [Seat]) -> Result<(), Refusal>
    ensures { OpensDesk desk.old (number_told result) desk.new }
{
    if desk.len() != regions::SEAT_COUNT {
        return Err(Refusal::Desk); // the one test: what the seats hold is not asked
    }
    desk.fill(regions::closed_seat());
    Ok(())
}

// Where seat i stands: DESK, SEAT.
fn place(desk: &[Seat], i: u32) -> Result<usize, Refusal>
    ensures number { number_told result ≡ place_no desk.now i }
    ensures place { IfOk result (λ at. at ≡ i) }
{
    if !seats::desk_fits(desk) {
        return Err(Refusal::Desk);
    }
    if regions::LAST_SEAT < i {
        return Err(Refusal::Seat);
    }
    Ok(i as usize)
}

// Opens seat i: DESK, SEAT, ACCOUNT, LIMIT.
pub fn open_seat(
    desk: &mut [Seat],
    i: u32,
    account: u32,
    kind: Kind,
    limit: u32,
) -> Result<(), Refusal>
    ensures { OpensSeat desk.old i account kind limit (number_told result) desk.new }
{
    let at = place(desk, i)?;
    desk[at] = seats::opens(desk[at], account, kind, limit)?;
    Ok(())
}

// Closes seat i: DESK, SEAT. Its mark is forgotten.
pub fn close_seat(desk: &mut [Seat], i: u32) -> Result<(), Refusal>
    ensures { ClosesSeat desk.old i (number_told result) desk.new }
{
    let at = place(desk, i)?;
    desk[at] = seats::closes(desk[at])?;
    Ok(())
}

// Whether a part may be asked for: DESK, SEAT, LIMIT.
pub fn asks_part(desk: &[Seat], buffer: &[u32], i: u32, count: u32) -> Result<(), Refusal>
    ensures { PartNumber desk.now buffer.now i count (number_told result) }
{
    if buffer.len() != regions::BUFFER_WORDS {
        return Err(Refusal::Desk);
    }
    let at = place(desk, i)?;
    seats::may_ask(desk[at], count)
}

// A partner's part: the lent words themselves, and none where the request is refused; `asks_part` tells the refusal.
pub fn part<'a>(desk: &[Seat], buffer: &'a [u32], i: u32, count: u32) -> &'a [u32]
    ensures { LendsPart desk.now buffer.entry i count result }
{
    parts::part_words(buffer, asks_part(desk, buffer, i, count), i, count)
}

// Both images, tested once a round.
fn images_valid(outer: &[u32], inner: &[u32]) -> bool
    ensures { result ≡ (valid outer.now && valid inner.now) }
{
    audit::is_valid(outer) && audit::is_valid(inner)
}

// A round: serves the seats from 0 to 7, each into its own words of the buffer, and tells the eight counts. IMAGE, DESK.
pub fn round(
    outer: &[u32],
    inner: &[u32],
    desk: &mut [Seat],
    buffer: &mut [u32],
) -> Result<[u32; regions::SEAT_COUNT], Refusal>
    ensures { Rounds outer.now inner.now desk.old buffer.old (number_told result) (counts_told result) desk.new buffer.new }
{
    let images = images_valid(outer, inner);
    seats::may_round(images, seats::desk_fits(desk), buffer.len())?;
    Ok(turns::serve(outer, inner, desk, buffer))
}
