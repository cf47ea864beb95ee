// The public calls for programs in C and Rust, in one archive. A slice goes over as a pointer and a number of words, an answer comes back as a struct.
// Each export hands its arguments on and its answer back, so that its promise is the call's own record.
#![tactic(auto)]

ghost use Rattle.index.specs.Opening.{OpensSet};
ghost use Rattle.index.specs.Changes.{Saves, Deletes};
ghost use Rattle.index.specs.Batches.{Batches};
ghost use Rattle.queries.specs.Searches.{FindsAncestors, FindsDescendants, FindsChildren};
ghost use Rattle.queries.specs.Joins.{JoinsSets};
ghost use Rattle.flat.specs.Numbers.{kind_of, choice_of_number};
ghost use Rattle.capi.specs.Border.{region, TellsParent};
ghost use Rattle.capi.specs.Seats.{OpensFlatDesk, OpensFlatSeat, ClosesFlatSeat, RoundsFlat, PartsFlat};

use flat::FlatDesk;
use regions::Region;

// The ancestor search's answer: its number, how many ancestors there are, and the steps it made.
#[repr(C)]
#[derive(Clone, Copy)]
pub struct AncestorsAnswer {
    pub number: u32,
    pub total: usize,
    pub steps: usize,
}

// The parent search's answer: its number, whether a parent was found, and that region; four zeros where none was.
#[repr(C)]
#[derive(Clone, Copy)]
pub struct ParentAnswer {
    pub number: u32,
    pub found: bool,
    pub start: u32,
    pub end: u32,
    pub level: u32,
    pub reference: u32,
}

// A descendant or child search's answer: its number, how many regions were written, and whether more remain.
#[repr(C)]
#[derive(Clone, Copy)]
pub struct ListAnswer {
    pub number: u32,
    pub more: bool,
    pub count: usize,
}

// The join's answer: its number, and how many pairs there are.
#[repr(C)]
#[derive(Clone, Copy)]
pub struct JoinAnswer {
    pub number: u32,
    pub total: usize,
}

// Opens a set.
#[unsafe(no_mangle)]
pub extern "C" fn sasnuvarth_open_set(
    img: &mut [u32],
    shares: &[u32; regions::ACCOUNT_COUNT],
) -> u32
    ensures { OpensSet img.old shares.now result img.new }
{
    let given = *shares;
    regions::number_told(index::open_set(img, given))
}

// Saves a region.
#[unsafe(no_mangle)]
pub extern "C" fn sasnuvarth_save(
    img: &mut [u32],
    account: u32,
    start: u32,
    end: u32,
    level: u32,
    reference: u32,
) -> u32
    ensures { Saves img.old account (region start end level reference) result img.new }
{
    let r = Region {
        start,
        end,
        level,
        reference,
    };
    regions::number_told(index::save(img, account, r))
}

// Deletes a region.
#[unsafe(no_mangle)]
pub extern "C" fn sasnuvarth_delete(img: &mut [u32], account: u32, start: u32) -> u32
    ensures { Deletes img.old account start result img.new }
{
    regions::number_told(index::delete(img, account, start))
}

// Saves and deletes many, and tells each item's number in its place.
#[unsafe(no_mangle)]
pub extern "C" fn sasnuvarth_batch(img: &mut [u32], items: &[u32], places: &mut [u32]) -> u32
    ensures { Batches img.old items.now places.old result img.new places.new }
{
    regions::number_told(index::batch(img, items, places))
}

// The ancestors of position p, by the choice.
#[unsafe(no_mangle)]
pub extern "C" fn sasnuvarth_ancestors(
    img: &[u32],
    account: u32,
    p: u32,
    choice: u32,
    out: &mut [u32],
) -> AncestorsAnswer
    ensures { FindsAncestors img.now account p (choice_of_number choice) out.old result.number result.total result.steps out.new }
{
    match queries::find_ancestors(img, account, p, flat::choice_of(choice), out) {
        Ok(a) => AncestorsAnswer {
            number: 0,
            total: a.total,
            steps: a.steps,
        },
        Err(r) => AncestorsAnswer {
            number: u32::from(r),
            total: 0,
            steps: 0,
        },
    }
}

// The parent of what stands at p on that level.
#[unsafe(no_mangle)]
pub extern "C" fn sasnuvarth_parent(img: &[u32], account: u32, p: u32, level: u32) -> ParentAnswer
    ensures { TellsParent img.now account p level result.number result.found (region result.start result.end result.level result.reference) }
{
    match queries::find_parent(img, account, p, level) {
        Err(r) => ParentAnswer {
            number: u32::from(r),
            found: false,
            start: 0,
            end: 0,
            level: 0,
            reference: 0,
        },
        Ok(None) => ParentAnswer {
            number: 0,
            found: false,
            start: 0,
            end: 0,
            level: 0,
            reference: 0,
        },
        Ok(Some(r)) => ParentAnswer {
            number: 0,
            found: true,
            start: r.start,
            end: r.end,
            level: r.level,
            reference: r.reference,
        },
    }
}

// The regions that start strictly inside the bounds and behind `after`.
#[unsafe(no_mangle)]
pub extern "C" fn sasnuvarth_descendants(
    img: &[u32],
    account: u32,
    start: u32,
    end: u32,
    after: u32,
    out: &mut [u32],
) -> ListAnswer
    ensures { FindsDescendants img.now account start end after out.old result.number result.count result.more out.new }
{
    match queries::find_descendants(img, account, start, end, after, out) {
        Ok(l) => ListAnswer {
            number: 0,
            more: l.more,
            count: l.count,
        },
        Err(r) => ListAnswer {
            number: u32::from(r),
            more: false,
            count: 0,
        },
    }
}

// The same, of those whose level is exactly one more than the given one.
#[unsafe(no_mangle)]
pub extern "C" fn sasnuvarth_children(
    img: &[u32],
    account: u32,
    start: u32,
    end: u32,
    level: u32,
    after: u32,
    out: &mut [u32],
) -> ListAnswer
    ensures { FindsChildren img.now account start end level after out.old result.number result.count result.more out.new }
{
    match queries::find_children(img, account, start, end, level, after, out) {
        Ok(l) => ListAnswer {
            number: 0,
            more: l.more,
            count: l.count,
        },
        Err(r) => ListAnswer {
            number: u32::from(r),
            more: false,
            count: 0,
        },
    }
}

// The pairs of an account.
#[unsafe(no_mangle)]
pub extern "C" fn sasnuvarth_join(
    outer: &[u32],
    inner: &[u32],
    account: u32,
    kind: u32,
    out: &mut [u32],
) -> JoinAnswer
    ensures { JoinsSets outer.now inner.now account (kind_of kind) out.old result.number result.total out.new }
{
    match queries::join_sets(outer, inner, account, flat::kind_of(kind), out) {
        Ok(total) => JoinAnswer { number: 0, total },
        Err(r) => JoinAnswer {
            number: u32::from(r),
            total: 0,
        },
    }
}

// THE DESK goes over by value: eight seats of seven numbers each, which a call takes and hands back.

// A desk after a call, and the call's number.
#[repr(C)]
#[derive(Clone, Copy)]
pub struct DeskAnswer {
    pub number: u32,
    pub desk: FlatDesk,
}

// A round's answer: its number, the eight counts, and the desk afterwards.
#[repr(C)]
#[derive(Clone, Copy)]
pub struct RoundAnswer {
    pub number: u32,
    pub counts: [u32; regions::SEAT_COUNT],
    pub desk: FlatDesk,
}

// A part's answer: its number, its first word in the round buffer, and how many words it has.
#[repr(C)]
#[derive(Clone, Copy)]
pub struct PartAnswer {
    pub number: u32,
    pub first: usize,
    pub words: usize,
}

// Opens a desk: eight closed seats. What stood there before is not asked for.
#[unsafe(no_mangle)]
pub extern "C" fn sasnuvarth_open_desk() -> FlatDesk
    ensures { OpensFlatDesk result.seats }
{
    flat::flat_desk([regions::closed_seat(); regions::SEAT_COUNT])
}

// Opens seat i.
#[unsafe(no_mangle)]
pub extern "C" fn sasnuvarth_open_seat(
    desk: FlatDesk,
    i: u32,
    account: u32,
    kind: u32,
    limit: u32,
) -> DeskAnswer
    ensures { OpensFlatSeat desk.seats i account kind limit result.number result.desk.seats }
{
    let mut seats = flat::seats_of(desk.seats);
    let k = flat::kind_of(kind);
    let number = regions::number_told(desk::open_seat(&mut seats, i, account, k, limit));
    DeskAnswer {
        number,
        desk: flat::desk_left(number, desk, seats),
    }
}

// Closes seat i.
#[unsafe(no_mangle)]
pub extern "C" fn sasnuvarth_close_seat(desk: FlatDesk, i: u32) -> DeskAnswer
    ensures { ClosesFlatSeat desk.seats i result.number result.desk.seats }
{
    let mut seats = flat::seats_of(desk.seats);
    let number = regions::number_told(desk::close_seat(&mut seats, i));
    DeskAnswer {
        number,
        desk: flat::desk_left(number, desk, seats),
    }
}

// Serves the eight seats, each into its own words of the buffer.
#[unsafe(no_mangle)]
pub extern "C" fn sasnuvarth_round(
    outer: &[u32],
    inner: &[u32],
    desk: FlatDesk,
    buffer: &mut [u32],
) -> RoundAnswer
    ensures { RoundsFlat outer.now inner.now desk.seats buffer.old result.number result.counts result.desk.seats buffer.new }
{
    let mut seats = flat::seats_of(desk.seats);
    match desk::round(outer, inner, &mut seats, buffer) {
        Ok(counts) => RoundAnswer {
            number: 0,
            counts,
            desk: flat::flat_desk(seats),
        },
        Err(r) => RoundAnswer {
            number: u32::from(r),
            counts: [0; regions::SEAT_COUNT],
            desk,
        },
    }
}

// Where a part lies in the round buffer: no reference can be handed back over the border, so the part is told by its place.
#[unsafe(no_mangle)]
pub extern "C" fn sasnuvarth_part(desk: FlatDesk, buffer: &[u32], i: u32, count: u32) -> PartAnswer
    ensures { PartsFlat desk.seats buffer.now i count result.number result.first result.words }
{
    let seats = flat::seats_of(desk.seats);
    match desk::asks_part(&seats, buffer, i, count) {
        Ok(()) => PartAnswer {
            number: 0,
            first: regions::SEAT_WIDTH * (i as usize),
            words: regions::PAIR_WIDTH * (count as usize),
        },
        Err(r) => PartAnswer {
            number: u32::from(r),
            first: 0,
            words: 0,
        },
    }
}
