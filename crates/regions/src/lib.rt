// Regions, kinds, marks and seats, and the small tests on them that everybody needs, each equal to its definition.
#![tactic(auto)]

ghost use Rattle.std.specs.Prelude.{◌≡◌, leb, ltb};
ghost use Rattle.words.specs.Lists.{sum};
ghost use Rattle.regions.specs.Limits.{most_regions};
ghost use Rattle.regions.specs.Positions.{document, account, well_bound, well_formed, ends_before, contains, crosses, stabs, spans, holds, too_late, inside, is_above, is_below};
ghost use Rattle.regions.specs.Calls.{foreign, choice_of, level_fits};
ghost use Rattle.regions.specs.Refusals.{refusal_number, number_told};
ghost use Rattle.regions.specs.Desk.{closed};

// REFUSALS (document 01's table): why a call was not done.
#[derive(Clone, Copy, Debug, PartialEq, Eq)]
pub enum Refusal {
    Image,
    Region,
    Account,
    Held,
    Cross,
    Share,
    Absent,
    Shares,
    Seat,
    Limit,
    Desk,
    Form,
    Room,
    Level,
}

// A refusal's number in the table, for those who are told a number.
impl From<Refusal> for u32 {
    ghost from_gives = { λ r n. n ≡ refusal_number r };

    fn from(r: Refusal) -> u32 {
        match r {
            Refusal::Image => 1,
            Refusal::Region => 2,
            Refusal::Account => 3,
            Refusal::Held => 4,
            Refusal::Cross => 5,
            Refusal::Share => 6,
            Refusal::Absent => 7,
            Refusal::Shares => 8,
            Refusal::Seat => 9,
            Refusal::Limit => 10,
            Refusal::Desk => 11,
            Refusal::Form => 12,
            Refusal::Room => 13,
            Refusal::Level => 14,
        }
    }
}

// The number of a call that answers nothing else: 0 where it was done.
pub fn number_told(answer: Result<(), Refusal>) -> u32
    ensures { result ≡ number_told answer }
{
    match answer {
        Ok(()) => 0,
        Err(r) => u32::from(r),
    }
}

// THE NUMBERS OF THE HOUSE, as specs/Limits has them. Accounts:
pub const ACCOUNT_COUNT: usize = 16;

pub const LAST_ACCOUNT: u32 = 15;

// the positions of a document, and of an account,
pub const DOCUMENT_POSITIONS: u32 = 65536;

pub const ACCOUNT_POSITIONS: u32 = 268435456;

pub const LAST_LEVEL: u32 = 255;

// the regions around one position at most,
pub const MOST_AROUND: usize = 255;

// the regions of a set at most, which its shares may come to together,
pub const MOST_REGIONS: u32 = 500;

// seats,
pub const SEAT_COUNT: usize = 8;

pub const LAST_SEAT: u32 = 7;

// the pairs a round of a seat that asks for limit 0, and the most that a seat may ask for,
pub const HOUSE_LIMIT: u32 = 8;

pub const MOST_A_ROUND: u32 = 32;

// and what things take in words: a region, a pair, an item of a batch, a seat's part of the round buffer, all of it.
pub const REGION_WIDTH: usize = 4;

pub const PAIR_WIDTH: usize = 4;

pub const ITEM_WIDTH: usize = 6;

pub const SEAT_WIDTH: usize = 128;

pub const BUFFER_WORDS: usize = 1024;

// A number for each account: shares, or regions held.
pub type Shares = [u32; 16];

// An element: where it starts and ends, its depth in its document, and the house's reference to it.
#[derive(Clone, Copy, Debug, PartialEq, Eq)]
pub struct Region {
    pub start: u32,
    pub end: u32,
    pub level: u32,
    pub reference: u32,
}

// Whether a region that starts at a position holds it too.
#[derive(Clone, Copy, Debug, PartialEq, Eq)]
pub enum Choice {
    Strict,
    WithSelf,
}

// What a join pairs.
#[derive(Clone, Copy, Debug, PartialEq, Eq)]
pub enum Kind {
    Ancestor,
    Parent,
    AncestorOrSelf,
}

// How far a seat has been served: the last pair handed, by a's start and d's start.
#[derive(Clone, Copy, Debug, PartialEq, Eq)]
pub enum Mark {
    Fresh,
    Last(u32, u32),
}

#[derive(Clone, Copy, Debug, PartialEq, Eq)]
pub struct Open {
    pub account: u32,
    pub kind: Kind,
    pub limit: u32,
    pub mark: Mark,
}

#[derive(Clone, Copy, Debug, PartialEq, Eq)]
pub enum State {
    Closed,
    Open(Open),
}

#[derive(Clone, Copy, Debug, PartialEq, Eq)]
pub struct Seat {
    pub state: State,
}

pub fn document_of(p: u32) -> u32
    ensures { result ≡ document p }
{
    p / DOCUMENT_POSITIONS
}

pub fn account_of(p: u32) -> u32
    ensures { result ≡ account p }
{
    p / ACCOUNT_POSITIONS
}

#[tactic(auto, unfolding(crate::specs::Positions::well_bound))]
pub fn well_bound(start: u32, end: u32) -> bool
    ensures { result ≡ well_bound start end }
{
    start < end && document_of(start) == document_of(end)
}

#[tactic(auto, unfolding(crate::specs::Positions::well_formed))]
pub fn well_formed(r: Region) -> bool
    ensures { result ≡ well_formed r }
{
    well_bound(r.start, r.end) && 1 <= r.level && r.level <= LAST_LEVEL
}

pub fn ends_before(x: Region, y: Region) -> bool
    ensures { result ≡ ends_before x y }
{
    x.end < y.start
}

#[tactic(auto, unfolding(crate::specs::Positions::contains))]
pub fn contains(x: Region, y: Region) -> bool
    ensures { result ≡ contains x y }
{
    x.start < y.start && y.end < x.end
}

#[tactic(auto, unfolding(crate::specs::Positions::crosses, crate::specs::Positions::nested))]
pub fn crosses(x: Region, y: Region) -> bool
    ensures { result ≡ crosses x y }
{
    !(ends_before(x, y) || ends_before(y, x) || contains(x, y) || contains(y, x))
}

#[tactic(auto, unfolding(crate::specs::Positions::stabs))]
pub fn stabs(k: u32, r: Region) -> bool
    ensures { result ≡ stabs k r }
{
    r.start <= k && k <= r.end
}

// The first start that comes too late to hold p: p itself, or with self the one behind it, for which 32 bits may not do.
#[tactic(auto, unfolding(crate::specs::Positions::too_late))]
fn too_late(choice: Choice, p: u32) -> usize
    ensures { result ≡ too_late choice p }
{
    match choice {
        Choice::Strict => p as usize,
        Choice::WithSelf => p as usize + 1,
    }
}

// Whether what starts there comes early enough to hold p. (A bound, and no test of the choice: whoever asks many starts about one p asks the choice once.)
pub fn in_time(choice: Choice, p: u32, start: u32) -> bool
    ensures { result ≡ ltb start (too_late choice p) }
{
    (start as usize) < too_late(choice, p)
}

#[tactic(auto, using(crate::proofs::Small::spans_ended))]
pub fn spans(choice: Choice, p: u32, start: u32, end: u32) -> bool
    ensures { result ≡ spans choice p start end }
{
    p < end && in_time(choice, p, start)
}

#[tactic(auto, unfolding(crate::specs::Positions::holds))]
pub fn holds(choice: Choice, p: u32, r: Region) -> bool
    ensures { result ≡ holds choice p r }
{
    spans(choice, p, r.start, r.end)
}

// By which choice a kind pairs: parents are always strict.
pub fn choice_of(kind: Kind) -> Choice
    ensures { result ≡ choice_of kind }
{
    match kind {
        Kind::Ancestor => Choice::Strict,
        Kind::Parent => Choice::Strict,
        Kind::AncestorOrSelf => Choice::WithSelf,
    }
}

#[tactic(auto, unfolding(crate::specs::Positions::inside))]
pub fn inside(start: u32, end: u32, r: Region) -> bool
    ensures { result ≡ inside start end r }
{
    start < r.start && r.start < end
}

// Whether the region's level is one less than the given one; level + 1 would not fit at the last number.
#[tactic(auto, unfolding(crate::specs::Positions::is_above))]
pub fn is_above(level: u32, r: Region) -> bool
    ensures { result ≡ is_above level r }
{
    level != 0 && r.level == level - 1
}

// Whether the region's level is one more.
#[tactic(auto, unfolding(crate::specs::Positions::is_below))]
pub fn is_below(level: u32, r: Region) -> bool
    ensures { result ≡ is_below level r }
{
    r.level != 0 && r.level - 1 == level
}

// Whether a region's level is one that a kind pairs with the given one: of a parent it is one less.
pub fn level_fits(kind: Kind, level: u32, r: Region) -> bool
    ensures { result ≡ level_fits kind level r }
{
    match kind {
        Kind::Ancestor => true,
        Kind::Parent => is_above(level, r),
        Kind::AncestorOrSelf => true,
    }
}

// Account above 15, or a position of another account.
#[tactic(auto, unfolding(crate::specs::Calls::foreign))]
pub fn foreign(account: u32, p: u32) -> bool
    ensures { result ≡ foreign account p }
{
    LAST_ACCOUNT < account || account_of(p) != account
}

// Whether sixteen shares sum to at most 500. No sum is made that could pass it, so none can wrap.
pub fn shares_fit(shares: Shares) -> bool
    ensures { result ≡ leb (sum shares) most_regions }
{
    let mut room: u32 = MOST_REGIONS;
    for share in shares {
        if room < share {
            return false;
        }
        room -= share;
    }
    true
}

pub fn closed_seat() -> Seat
    ensures { result ≡ closed }
{
    Seat {
        state: State::Closed,
    }
}
