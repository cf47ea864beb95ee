// The calls on images, each with the numbers of its line and its answer printed.
ghost use Rattle.std.specs.Prelude.{◌≤◌};

use inside::Listing;
use queries::Ancestors;
use regions::{Choice, Refusal, Region};
use script::{Call, Numbers};
use std::io;

// The smaller of a size and what there is.
pub fn least(n: usize, most: usize) -> usize
    ensures { result ≤ most }
{
    n.min(most)
}

// The number of a call that answers nothing else.
fn number(rt: &impl Print, answer: Result<(), Refusal>) -> io::Result<()> {
    console::line(rt, &[regions::number_told(answer)])
}

fn open(rt: &impl Print, img: &mut [u32], n: Numbers) -> io::Result<()> {
    let mut shares = [0u32; regions::ACCOUNT_COUNT];
    shares.copy_from_slice(&n[1..17]);
    number(rt, index::open_set(img, shares))
}

fn save(rt: &impl Print, img: &mut [u32], n: Numbers) -> io::Result<()> {
    let r = Region {
        start: n[2],
        end: n[3],
        level: n[4],
        reference: n[5],
    };
    number(rt, index::save(img, n[1], r))
}

// An ancestor search's number, and what it found: nothing where it is refused.
fn found(answer: Result<Ancestors, Refusal>) -> (u32, Ancestors) {
    match answer {
        Ok(found) => (0, found),
        Err(refusal) => (u32::from(refusal), Ancestors { total: 0, steps: 0 }),
    }
}

fn ancestors(
    rt: &impl Print,
    img: &[u32],
    n: Numbers,
    choice: Choice,
    lent: u32,
    answers: &mut [u32],
) -> io::Result<()> {
    let room = least(lent as usize, answers.len());
    let (number, a) = found(queries::find_ancestors(img, n[1], n[2], choice, &mut answers[..room]));
    console::line(rt, &[number, console::narrow(a.total)])?;
    console::rows(rt, &answers[..room], a.total)
}

// The same search with no room, for its step count.
fn steps(rt: &impl Print, img: &[u32], n: Numbers, choice: Choice) -> io::Result<()> {
    let (number, a) = found(queries::find_ancestors(img, n[1], n[2], choice, &mut []));
    console::line(
        rt,
        &[number, console::narrow(a.total), console::narrow(a.steps)],
    )
}

fn parent(rt: &impl Print, img: &[u32], n: Numbers) -> io::Result<()> {
    match queries::find_parent(img, n[1], n[2], n[3]) {
        Err(refusal) => console::line(rt, &[u32::from(refusal), 0]),
        Ok(None) => console::line(rt, &[0, 0]),
        Ok(Some(r)) => console::line(rt, &[0, 1, r.start, r.end, r.level, r.reference]),
    }
}

// What a search by bounds answers, and the rows that it wrote: none where it is refused.
fn listed(rt: &impl Print, answer: Result<Listing, Refusal>, answers: &[u32]) -> io::Result<()> {
    match answer {
        Ok(l) => {
            console::line(rt, &[0, console::narrow(l.count), u32::from(l.more)])?;
            console::rows(rt, answers, l.count)
        }
        Err(refusal) => console::line(rt, &[u32::from(refusal), 0, 0]),
    }
}

fn descendants(rt: &impl Print, img: &[u32], n: Numbers, answers: &mut [u32]) -> io::Result<()> {
    let room = least(n[5] as usize, answers.len());
    let answer = queries::find_descendants(img, n[1], n[2], n[3], n[4], &mut answers[..room]);
    listed(rt, answer, &answers[..room])
}

fn children(rt: &impl Print, img: &[u32], n: Numbers, answers: &mut [u32]) -> io::Result<()> {
    let room = least(n[6] as usize, answers.len());
    let answer = queries::find_children(img, n[1], n[2], n[3], n[4], n[5], &mut answers[..room]);
    listed(rt, answer, &answers[..room])
}

// A search in an image.
fn search(
    rt: &impl Print,
    img: &[u32],
    call: Call,
    n: Numbers,
    answers: &mut [u32],
) -> io::Result<()> {
    match call {
        Call::Ancestors => ancestors(rt, img, n, Choice::Strict, n[3], answers),
        Call::Steps => steps(rt, img, n, Choice::Strict),
        Call::Around => ancestors(rt, img, n, flat::choice_of(n[3]), n[4], answers),
        Call::AroundSteps => steps(rt, img, n, flat::choice_of(n[3])),
        Call::Parent => parent(rt, img, n),
        Call::Descendants => descendants(rt, img, n, answers),
        _ => children(rt, img, n, answers),
    }
}

// All places of a batch on one line; no line where there is none.
fn told_places(rt: &impl Print, places: &[u32]) -> io::Result<()> {
    for (at, place) in places.iter().enumerate() {
        if at != 0 {
            console::text(rt, b" ")?;
        }
        console::number(rt, *place as usize)?;
    }
    if places.is_empty() {
        return Ok(());
    }
    console::text(rt, b"\n")
}

// The first words of the given buffer as the items of a batch.
fn batch(
    rt: &impl Print,
    img: &mut [u32],
    n: Numbers,
    given: &[u32],
    answers: &mut [u32],
) -> io::Result<()> {
    let items = least(n[1] as usize, given.len());
    let room = least(n[2] as usize, answers.len());
    answers[..room].fill(u32::MAX); // what stands in every place before
    number(rt, index::batch(img, &given[..items], &mut answers[..room]))?;
    told_places(rt, &answers[..room])
}

// A call on an image.
pub fn call(
    rt: &impl Print,
    img: &mut [u32],
    call: Call,
    n: Numbers,
    given: &[u32],
    answers: &mut [u32],
) -> io::Result<()> {
    match call {
        Call::Open => open(rt, img, n),
        Call::Save => save(rt, img, n),
        Call::Delete => number(rt, index::delete(img, n[1], n[2])),
        Call::Batch => batch(rt, img, n, given, answers),
        _ => search(rt, img, call, n, answers),
    }
}

// The join of two images, which may be one and the same.
pub fn join(
    rt: &impl Print,
    outer: &[u32],
    inner: &[u32],
    n: Numbers,
    answers: &mut [u32],
) -> io::Result<()> {
    let room = least(n[4] as usize, answers.len());
    let kind = flat::kind_of(n[3]);
    match queries::join_sets(outer, inner, n[2], kind, &mut answers[..room]) {
        Ok(total) => {
            console::line(rt, &[0, console::narrow(total)])?;
            console::rows(rt, &answers[..room], total)
        }
        Err(refusal) => console::line(rt, &[u32::from(refusal), 0]),
    }
}

// Writes a word, where there is one.
pub fn put(to: &mut [u32], at: u32, value: u32) {
    let i = at as usize;
    if i < to.len() {
        to[i] = value;
    }
}

// Writes a word of an image directly.
pub fn put_word(outer: &mut [u32], inner: &mut [u32], n: Numbers) {
    if n[0] == 0 {
        put(outer, n[1], n[2]);
    } else {
        put(inner, n[1], n[2]);
    }
}
