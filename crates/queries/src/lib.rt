// The public calls that ask: a set for ancestors, the parent, descendants and children, two sets for their join. Each takes any slices, tests in its order and answers with its refusal where a test fails; no image is changed.
#![tactic(auto)]

ghost use Rattle.std.specs.Prelude.{◌≡◌};
ghost use Rattle.regions.specs.Numbers.{image_first};
ghost use Rattle.regions.specs.Calls.{point_no, bounds_no};
ghost use Rattle.regions.specs.Refusals.{number_told};
ghost use Rattle.image.specs.Valid.{valid};
ghost use Rattle.queries.specs.Joins.{JoinsSets, pairs_told};
ghost use Rattle.queries.specs.Searches.{FindsAncestors, FindsParent, FindsDescendants, FindsChildren, total_told, steps_told, count_told, more_told};

use inside::Listing;
use regions::{Choice, Kind, Mark, Refusal, Region};

// The ancestor search's answer: how many ancestors there are, and the steps it made.
#[derive(Clone, Copy, Debug, PartialEq, Eq)]
pub struct Ancestors {
    pub total: usize,
    pub steps: usize,
}

// Whether a search by a position may go on: IMAGE, ACCOUNT.
pub fn may_search_at(img: &[u32], account: u32, p: u32) -> Result<(), Refusal>
    ensures { number_told result ≡ image_first (valid img.now) (point_no account p) }
{
    if !audit::is_valid(img) {
        return Err(Refusal::Image);
    }
    if regions::foreign(account, p) {
        return Err(Refusal::Account);
    }
    Ok(())
}

// The ancestors of position p, strictly or with self, outermost first: as many as fit, their total, and the steps that the search made.
pub fn find_ancestors(
    img: &[u32],
    account: u32,
    p: u32,
    choice: Choice,
    out: &mut [u32],
) -> Result<Ancestors, Refusal>
    ensures { FindsAncestors img.now account p choice out.old (number_told result) (total_told result) (steps_told result) out.new }
{
    may_search_at(img, account, p)?;
    let t = search::ancestors(img, choice, p, out);
    Ok(Ancestors {
        total: t.total,
        steps: t.steps,
    })
}

// The strict ancestor of p whose level is one less than the given one, or none: there is never a second one. (What was found is taken apart by `let .. else`, as document 01 has it here.)
pub fn find_parent(img: &[u32], account: u32, p: u32, level: u32) -> Result<Option<Region>, Refusal>
    ensures { FindsParent img.now account p level result }
{
    may_search_at(img, account, p)?;
    let Some(r) = search::parent(img, p, level) else {
        return Ok(None);
    };
    Ok(Some(r))
}

// Whether a search by bounds may go on: IMAGE, REGION, ACCOUNT.
pub fn may_search_bounds(img: &[u32], account: u32, start: u32, end: u32) -> Result<(), Refusal>
    ensures { number_told result ≡ image_first (valid img.now) (bounds_no account start end) }
{
    if !audit::is_valid(img) {
        return Err(Refusal::Image);
    }
    if !regions::well_bound(start, end) {
        return Err(Refusal::Region);
    }
    if regions::foreign(account, start) {
        return Err(Refusal::Account);
    }
    Ok(())
}

// The regions that start strictly inside the bounds and behind `after`, ascending, as many as fit.
pub fn find_descendants(
    img: &[u32],
    account: u32,
    start: u32,
    end: u32,
    after: u32,
    out: &mut [u32],
) -> Result<Listing, Refusal>
    ensures { FindsDescendants img.now account start end after out.old (number_told result) (count_told result) (more_told result) out.new }
{
    may_search_bounds(img, account, start, end)?;
    Ok(inside::descendants(img, start, end, after, out))
}

// The same, of those whose level is exactly one more than the given one.
pub fn find_children(
    img: &[u32],
    account: u32,
    start: u32,
    end: u32,
    level: u32,
    after: u32,
    out: &mut [u32],
) -> Result<Listing, Refusal>
    ensures { FindsChildren img.now account start end level after out.old (number_told result) (count_told result) (more_told result) out.new }
{
    may_search_bounds(img, account, start, end)?;
    Ok(inside::children(img, start, end, level, after, out))
}

// The pairs of an account, one region of outer and one of inner each, by d's start and then a's start: as many as fit, and their total.
pub fn join_sets(
    outer: &[u32],
    inner: &[u32],
    account: u32,
    kind: Kind,
    out: &mut [u32],
) -> Result<usize, Refusal>
    ensures { JoinsSets outer.now inner.now account kind out.old (number_told result) (pairs_told result) out.new }
{
    if !audit::is_valid(outer) {
        return Err(Refusal::Image);
    }
    if !audit::is_valid(inner) {
        return Err(Refusal::Image);
    }
    if regions::LAST_ACCOUNT < account {
        return Err(Refusal::Account);
    }
    let total = join::pairs_past(outer, inner, account, kind, Mark::Fresh, out, true);
    Ok(total)
}
