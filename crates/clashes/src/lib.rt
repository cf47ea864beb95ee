// Whether a start is held, and whether a region crosses a held one, by descents alone; and whether its level contradicts a held one's, by one of these and a walk over what lies inside.
#![tactic(auto)]

ghost use Rattle.std.specs.Prelude.{◌≡◌, false, ◌<◌, T};
ghost use Rattle.words.specs.Lists.{filter};
ghost use Rattle.regions.specs.Sets.{is_at, held_at, crossed, contradicted};
ghost use Rattle.image.specs.Read.{set_of};
ghost use Rattle.image.specs.Valid.{valid};
ghost use Rattle.tally.specs.Tallies.{found_list};
ghost use Rattle.clashes.specs.Reach.{reach, innermost, ends_by, starts_past, level_from};

use regions::{Choice, Region};

// THE HELD REGION WITH THAT START, if there is one: starts ascend, so only the first entry that does not start before y can be it.
pub fn region_at(img: &[u32], y: u32) -> Option<Region>
    requires { T (valid img.now) }
    ensures { found_list result ≡ filter (is_at y) (set_of img.now).regions }
{
    let (entry, _) = leaves::seek_from(img, y).step(img)?;
    (entry.region.start == y).then_some(entry.region)
}

// THE INNERMOST REGION THAT REACHES x from the left: start < x ≤ end, so that it holds the position before x, with self. Ancestors are met outermost first, so it is the
// last; one word has no room for a region, so none is written.
pub fn innermost_at(img: &[u32], x: u32) -> Option<Region>
    requires { T (valid img.now) }
    ensures { found_list result ≡ innermost (reach x (set_of img.now)) }
{
    let before = x.checked_sub(1)?;
    search::ancestors(img, Choice::WithSelf, before, &mut [0; 1]).last
}

// Whether one was found that ends at or before e: an end that touches e crosses too.
fn ends_by(f: Option<Region>, e: u32) -> bool
    ensures { result ≡ ends_by e (found_list f) }
{
    f.is_some_and(|a| a.end <= e)
}

// Whether one was found that starts behind s.
fn starts_past(f: Option<Region>, s: u32) -> bool
    ensures { result ≡ starts_past s (found_list f) }
{
    f.is_some_and(|a| s < a.start)
}

// Whether one was found whose level is not below the given one.
fn level_from(f: Option<Region>, level: u32) -> bool
    ensures { result ≡ level_from level (found_list f) }
{
    f.is_some_and(|a| level <= a.level)
}

// WHETHER A REGION CROSSES A HELD ONE, for a region whose start is not held, given what reaches its start: that ends in it, its end is a held start, or what reaches its end
// starts in it. Of those that reach a position the innermost ends first and starts last, so that it alone is looked at.
pub fn crosses_held(img: &[u32], r: Region, before: Option<Region>) -> bool
    requires img_valid { T (valid img.now) }
    requires start_lt_end { r.start < r.end }
    requires img_value { held_at r.start (set_of img.now) ≡ false }
    requires before_value { found_list before ≡ innermost (reach r.start (set_of img.now)) }
    ensures { result ≡ crossed r (set_of img.now) }
{
    ends_by(before, r.end)
        || region_at(img, r.end).is_some()
        || starts_past(innermost_at(img, r.end), r.start)
}

// WHETHER A REGION'S LEVEL CONTRADICTS A HELD ONE'S, for a region that crosses none, given what reaches its start: what does contains it, and of these the innermost has
// the highest level, so that it alone is looked at. What starts inside lies inside, and is looked at until one contradicts.
pub fn contradicts_held(img: &[u32], r: Region, before: Option<Region>) -> bool
    requires img_valid { T (valid img.now) }
    requires start_lt_end { r.start < r.end }
    requires img_value { crossed r (set_of img.now) ≡ false }
    requires before_value { found_list before ≡ innermost (reach r.start (set_of img.now)) }
    ensures { result ≡ contradicted r (set_of img.now) }
{
    level_from(before, r.level) || inside::some_up_to(img, r.start, r.end, r.level)
}
