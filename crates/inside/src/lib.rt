// What starts inside given bounds: the entries along the leaves, from the first behind the bounds' start, as many as fit.
#![tactic(auto)]

ghost use Rattle.std.specs.Prelude.{◌≡◌, [], ◌∷◌, ◌+◌, ◌/◌, ◌≤◌, max, T, length};
ghost use Rattle.words.specs.Lists.{filter, some};
ghost use Rattle.regions.specs.Positions.{inside};
ghost use Rattle.regions.specs.Sets.{starts_behind};
ghost use Rattle.regions.specs.Calls.{region_words, descendants, children};
ghost use Rattle.image.specs.Read.{set_of};
ghost use Rattle.image.specs.Valid.{valid};
ghost use Rattle.answers.specs.Items.{written_from};
ghost use Rattle.inside.specs.Lists.{up_to, wants, asked, Listed};

use regions::Region;

// Which of the regions inside are asked for: all, those one level below the given one, or those whose level is not above it. (An enum and no closure: these three wishes are
// all there are, and one walk serves them.)
#[derive(Clone, Copy, Debug, PartialEq, Eq)]
pub enum Wanted {
    All,
    Below(u32),
    UpTo(u32),
}

// How many regions were written, and whether more remain.
#[derive(Clone, Copy)]
pub struct Listing {
    pub count: usize,
    pub more: bool,
}

fn is_wanted(wanted: Wanted, r: Region) -> bool
    ensures { result ≡ wants wanted r }
{
    match wanted {
        Wanted::All => true,
        Wanted::Below(level) => regions::is_below(level, r),
        Wanted::UpTo(level) => r.level <= level,
    }
}

// Where r is wanted, it is counted, and written if it fits.
fn take(wanted: Wanted, r: Region, out: &mut [u32], count: usize) -> usize
    requires { count ≤ length out.old / 4 }
    ensures { (out.new ≡ written_from region_words 4 count out.old (filter (wants wanted) (r ∷ []))) × (result ≡ count + length (filter (wants wanted) (r ∷ []))) }
{
    if !is_wanted(wanted, r) {
        return count;
    }
    answers::put_region(out, count, r);
    count + 1
}

// Along the leaves from the first entry behind `from` on, while entries start before `end`. The first wanted one past those that fit ends the walk: it says
// that more remain, and no further page is looked at.
fn walk(img: &[u32], from: u32, end: u32, wanted: Wanted, out: &mut [u32]) -> Listing
    requires { T (valid img.now) }
    ensures { Listed (filter (asked wanted end) (filter (starts_behind from) (set_of img.now).regions)) out.old out.new result }
{
    let room = out.len() / 4;
    let mut cursor = leaves::seek(img, from);
    let mut count: usize = 0;
    while let Some((entry, on)) = cursor.step(img) {
        if end <= entry.region.start {
            break;
        }
        count = take(wanted, entry.region, out, count);
        if room < count {
            return Listing {
                count: room,
                more: true,
            };
        }
        cursor = on;
    }
    Listing { count, more: false }
}

// Regions behind `after` and inside the bounds start behind both.
fn later(start: u32, after: u32) -> u32
    ensures { result ≡ max start after }
{
    start.max(after)
}

// DESCENDANT SEARCH of a valid image: what starts strictly inside the bounds, and behind `after`.
pub fn descendants(img: &[u32], start: u32, end: u32, after: u32, out: &mut [u32]) -> Listing
    requires { T (valid img.now) }
    ensures { Listed (descendants start end after (set_of img.now)) out.old out.new result }
{
    walk(img, later(start, after), end, Wanted::All, out)
}

// CHILD SEARCH of a valid image: of the descendants those one level below.
pub fn children(
    img: &[u32],
    start: u32,
    end: u32,
    level: u32,
    after: u32,
    out: &mut [u32],
) -> Listing
    requires { T (valid img.now) }
    ensures { Listed (children start end level after (set_of img.now)) out.old out.new result }
{
    walk(img, later(start, after), end, Wanted::Below(level), out)
}

// WHETHER SOME REGION inside the bounds has a level that is not above the given one. One word has no room for a region, so the first such region ends the walk, and
// none is written.
pub fn some_up_to(img: &[u32], start: u32, end: u32, level: u32) -> bool
    requires { T (valid img.now) }
    ensures { result ≡ some (filter (up_to level) (filter (inside start end) (set_of img.now).regions)) }
{
    let mut no_room = [0u32; 1];
    walk(img, start, end, Wanted::UpTo(level), &mut no_room).more
}
