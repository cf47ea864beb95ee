// Runs the examples of document 01 that are no theorems, and those traps of its source that a run can show. Each is compared with the answer that the document gives
// (or a change request: C-15, on levels; C-17, with self), and has a line: its name, and `right`, or `wrong` with what came out and what should have.
#![tactic(auto)]

use regions::{Choice, Kind, Refusal, Region, Seat};
use std::io;

// An example's line.
fn check(rt: &impl Print, name: &[u8], got: usize, expected: usize) -> io::Result<()> {
    console::text(rt, name)?;
    if got == expected {
        return console::text(rt, b": right\n");
    }
    console::text(rt, b": wrong, ")?;
    console::number(rt, got)?;
    console::text(rt, b" and not ")?;
    console::number(rt, expected)?;
    console::text(rt, b"\n")
}

// The number that a call is told by.
fn told(answer: Result<(), Refusal>) -> usize {
    regions::number_told(answer) as usize
}

// Opens a set in which account 0 has a share, and the others none.
fn open(img: &mut [u32], share: u32) -> usize {
    let mut shares = [0u32; regions::ACCOUNT_COUNT];
    shares[0] = share;
    told(index::open_set(img, shares))
}

// Saves a region of account 0.
fn save(img: &mut [u32], start: u32, end: u32, level: u32, reference: u32) -> usize {
    let r = Region {
        start,
        end,
        level,
        reference,
    };
    told(index::save(img, 0, r))
}

fn delete(img: &mut [u32], start: u32) -> usize {
    told(index::delete(img, 0, start))
}

fn around(img: &[u32], p: u32, choice: Choice) -> usize {
    let mut out = [0u32; 64];
    match queries::find_ancestors(img, 0, p, choice, &mut out) {
        Ok(found) => found.total,
        Err(_) => 0,
    }
}

fn ancestors(img: &[u32], p: u32) -> usize {
    around(img, p, Choice::Strict)
}

// The outer set of the document's listing.
fn open_outer(img: &mut [u32], share: u32) {
    open(img, share);
    save(img, 10, 90, 1, 101);
    save(img, 20, 50, 2, 102);
    save(img, 30, 40, 3, 103);
    save(img, 60, 80, 2, 104);
}

// The inner set of the bench's join: five short regions.
fn open_inner(img: &mut [u32]) {
    open(img, 10);
    save(img, 25, 26, 3, 201);
    save(img, 35, 36, 4, 202);
    save(img, 55, 56, 2, 203);
    save(img, 70, 71, 3, 204);
    save(img, 95, 96, 1, 205);
}

// REGION.
fn saves(rt: &impl Print, outer: &mut [u32]) -> io::Result<()> {
    open_outer(outer, 10);
    check(rt, b"save (7, 7)", save(outer, 7, 7, 1, 0), 2)?;
    check(
        rt,
        b"save (65530, 65540)",
        save(outer, 65530, 65540, 1, 0),
        2,
    )
}

// LEVEL (change request C-15): around all others there is no level left; around (60, 80) and inside (30, 40) the level may not be theirs.
fn levels(rt: &impl Print, outer: &mut [u32]) -> io::Result<()> {
    open_outer(outer, 10);
    check(
        rt,
        b"save (5, 95) at level 1",
        save(outer, 5, 95, 1, 105),
        14,
    )?;
    check(
        rt,
        b"save (55, 85) at level 2",
        save(outer, 55, 85, 2, 105),
        14,
    )?;
    check(
        rt,
        b"save (33, 37) at level 3",
        save(outer, 33, 37, 3, 105),
        14,
    )?;
    check(
        rt,
        b"save (33, 37) at level 4",
        save(outer, 33, 37, 4, 105),
        0,
    )
}

// SHARE comes after LEVEL.
fn full_levels(rt: &impl Print, outer: &mut [u32]) -> io::Result<()> {
    open_outer(outer, 4);
    check(
        rt,
        b"with share 4, save (5, 95)",
        save(outer, 5, 95, 1, 105),
        14,
    )
}

// SHARE comes after CROSS, and a delete gives the room back.
fn full_account(rt: &impl Print, outer: &mut [u32]) -> io::Result<()> {
    open_outer(outer, 4);
    check(
        rt,
        b"with share 4, save (91, 95)",
        save(outer, 91, 95, 1, 105),
        6,
    )?;
    check(
        rt,
        b"with share 4, save (45, 55)",
        save(outer, 45, 55, 3, 105),
        5,
    )?;
    check(rt, b"delete 30", delete(outer, 30), 0)?;
    check(rt, b"then save (91, 95)", save(outer, 91, 95, 1, 105), 0)
}

fn join_by(outer: &[u32], inner: &[u32], kind: Kind, out: &mut [u32]) -> usize {
    queries::join_sets(outer, inner, 0, kind, out).unwrap_or(0)
}

fn join(outer: &[u32], inner: &[u32], out: &mut [u32]) -> usize {
    join_by(outer, inner, Kind::Ancestor, out)
}

// How many of the first eight pairs have their d at a start.
fn pairs_of(out: &[u32], start: u32) -> usize {
    let mut n: usize = 0;
    for i in 0..8 {
        if words::word(out, 4 * i + 2) == start {
            n += 1;
        }
    }
    n
}

fn bench_join(rt: &impl Print, outer: &[u32], inner: &[u32]) -> io::Result<()> {
    let mut out = [0u32; 32];
    let total = join(outer, inner, &mut out);
    check(rt, b"pairs of the join", total, 8)?;
    check(rt, b"pairs of 25", pairs_of(&out, 25), 2)?;
    check(rt, b"pairs of 35", pairs_of(&out, 35), 3)?;
    check(rt, b"pairs of 55", pairs_of(&out, 55), 1)?;
    check(rt, b"pairs of 70", pairs_of(&out, 70), 2)?;
    check(rt, b"pairs of 95", pairs_of(&out, 95), 0)
}

// The desk with seat 0 open for account 0's ancestor join, at limit 3.
fn open_desk() -> [Seat; regions::SEAT_COUNT] {
    let mut seats = [regions::closed_seat(); regions::SEAT_COUNT];
    told(desk::open_desk(&mut seats));
    told(desk::open_seat(&mut seats, 0, 0, Kind::Ancestor, 3));
    seats
}

// A round, and what seat 0 was handed in it.
fn serve(outer: &[u32], inner: &[u32], seats: &mut [Seat]) -> usize {
    let mut buffer = [0u32; regions::BUFFER_WORDS];
    match desk::round(outer, inner, seats, &mut buffer) {
        Ok(counts) => counts[0] as usize,
        Err(_) => 0,
    }
}

fn bench_rounds(rt: &impl Print, outer: &[u32], inner: &[u32]) -> io::Result<()> {
    let mut seats = open_desk();
    let first = serve(outer, inner, &mut seats);
    check(rt, b"handed in round 1 at limit 3", first, 3)?;
    check(rt, b"handed in round 2", serve(outer, inner, &mut seats), 3)?;
    check(rt, b"handed in round 3", serve(outer, inner, &mut seats), 2)?;
    check(rt, b"handed in round 4", serve(outer, inner, &mut seats), 0)
}

// Algorithm 6 would stop where the outer list ends, and lose the second pair.
fn outer_list_ends(rt: &impl Print, outer: &mut [u32], inner: &mut [u32]) -> io::Result<()> {
    open(outer, 10);
    save(outer, 1, 100, 1, 101);
    open(inner, 10);
    save(inner, 2, 3, 2, 201);
    save(inner, 4, 5, 2, 202);
    let mut out = [0u32; 32];
    let total = join(outer, inner, &mut out);
    check(rt, b"pairs behind the outer list's end", total, 2)?;
    check(rt, b"the second pair's d", out[6] as usize, 4)
}

// Algorithm 5 would go from the higher key down; the answer runs from outermost to innermost.
fn outermost_first(rt: &impl Print, outer: &mut [u32]) -> io::Result<()> {
    open_outer(outer, 10);
    let mut out = [0u32; 12];
    let _ = queries::find_ancestors(outer, 0, 35, Choice::Strict, &mut out); // what it wrote tells
    check(rt, b"the first ancestor of 35", out[0] as usize, 10)?;
    check(rt, b"the second", out[4] as usize, 20)?;
    check(rt, b"the third", out[8] as usize, 30)
}

// Two traps of the source: a region that starts at the position is not its ancestor, and a walk along the leaves has to stop behind the last one.
fn leaf_ends(rt: &impl Print, outer: &mut [u32]) -> io::Result<()> {
    open_outer(outer, 10);
    check(rt, b"ancestors of a start", ancestors(outer, 60), 1)?;
    let mut out = [0u32; 64];
    let count = match queries::find_descendants(outer, 0, 5, 1000, 0, &mut out) {
        Ok(listed) => listed.count,
        Err(_) => 0,
    };
    check(rt, b"descendants up to the last leaf's end", count, 4)
}

// With self a region that starts at the position is listed too, as the last, but none that ends there; and a set joined with itself has each region with all around it.
fn with_self(rt: &impl Print, outer: &mut [u32]) -> io::Result<()> {
    open_outer(outer, 10);
    check(
        rt,
        b"with self of a start",
        around(outer, 30, Choice::WithSelf),
        3,
    )?;
    check(
        rt,
        b"with self of an end",
        around(outer, 40, Choice::WithSelf),
        2,
    )?;
    let mut out = [0u32; 32];
    let total = join_by(outer, outer, Kind::AncestorOrSelf, &mut out);
    check(rt, b"pairs of a set with itself", total, 8)?;
    check(rt, b"the last pair's a", out[28] as usize, 60)?;
    check(rt, b"the last pair's d", out[30] as usize, 60)
}

// One region around a row of forty, whose leaves make keys that stab it.
fn open_row(img: &mut [u32]) {
    open(img, 50);
    save(img, 1, 1000, 1, 100);
    for i in 0..40 {
        save(img, 10 + 20 * i, 20 + 20 * i, 2, i);
    }
}

// A key that goes without handing on its list would hide the region around the row: after each delete it has still to be found.
fn keys_go(rt: &impl Print, img: &mut [u32]) -> io::Result<()> {
    open_row(img);
    let mut found: usize = 0;
    for i in 0..40 {
        delete(img, 10 + 20 * i);
        if ancestors(img, 10 + 20 * i) == 1 {
            found += 1;
        }
    }
    check(rt, b"found while its keys go", found, 40)
}

fn main(rt: HostRuntime) -> io::Result<()> {
    let mut outer = [0u32; pages::IMAGE_WORDS];
    let mut inner = [0u32; pages::IMAGE_WORDS];
    saves(&rt, &mut outer)?;
    levels(&rt, &mut outer)?;
    full_levels(&rt, &mut outer)?;
    full_account(&rt, &mut outer)?;
    open_outer(&mut outer, 10);
    open_inner(&mut inner);
    bench_join(&rt, &outer, &inner)?;
    bench_rounds(&rt, &outer, &inner)?;
    outer_list_ends(&rt, &mut outer, &mut inner)?;
    outermost_first(&rt, &mut outer)?;
    leaf_ends(&rt, &mut outer)?;
    with_self(&rt, &mut outer)?;
    keys_go(&rt, &mut outer)
}
