// The public calls on sets: each takes any input, tests in its order, and answers with the first test that refuses it.
#![tactic(auto)]

ghost use Rattle.std.specs.Prelude.{◌≡◌, ◌+◌, ◌≤◌, T, length, drop};
ghost use Rattle.regions.specs.Limits.{item_width};
ghost use Rattle.regions.specs.Items.{item, item_region, items_in};
ghost use Rattle.regions.specs.Refusals.{number_told};
ghost use Rattle.image.specs.Valid.{valid};
ghost use Rattle.changes.specs.Counts.{Counted};
ghost use Rattle.index.specs.Opening.{OpensSet};
ghost use Rattle.index.specs.Changes.{Saves, Deletes};
ghost use Rattle.index.specs.Batches.{Single, AnswersFirst, Batches};

use regions::{Refusal, Region};

// Opens a set: all words are written, none is read.
pub fn open_set(img: &mut [u32], shares: [u32; regions::ACCOUNT_COUNT]) -> Result<(), Refusal>
    ensures { OpensSet img.old shares (number_told result) img.new }
{
    if img.len() != pages::IMAGE_WORDS {
        return Err(Refusal::Image);
    }
    if !regions::shares_fit(shares) {
        return Err(Refusal::Shares);
    }
    img.fill(0);
    img[2..18].copy_from_slice(&shares);
    img[0] = 1;
    img[1] = 1;
    img[pages::PAGE_WIDTH] = 1;
    Ok(())
}

// Saves a region in its account: refused by the first test that it fails, and then no word changes.
pub fn save(img: &mut [u32], account: u32, r: Region) -> Result<(), Refusal>
    ensures { Saves img.old account r (number_told result) img.new }
{
    let Some(held) = audit::audit(img) else {
        return Err(Refusal::Image);
    };
    changes::save(img, account, r, held)
}

// Deletes the region of an account that starts at `start`.
pub fn delete(img: &mut [u32], account: u32, start: u32) -> Result<(), Refusal>
    ensures { Deletes img.old account start (number_told result) img.new }
{
    if !audit::is_valid(img) {
        return Err(Refusal::Image);
    }
    changes::delete(img, account, start)
}

// The region of the item that stands from word `at` on.
fn item_region(items: &[u32], at: usize) -> Region
    requires { at + item_width ≤ length items.now }
    ensures { result ≡ item_region (drop at items.now) }
{
    Region {
        start: items[at + 2],
        end: items[at + 3],
        level: items[at + 4],
        reference: items[at + 5],
    }
}

// One item of a batch, on an image that is known to be valid: 0 is a save, 1 a delete, of which only the start is read; any other is told FORM.
fn apply(
    img: &mut [u32],
    what: u32,
    account: u32,
    r: Region,
    held: &mut [u32; regions::ACCOUNT_COUNT],
) -> Result<(), Refusal>
    requires { T (valid img.old) × Counted held.old img.old }
    ensures { Single img.old (item what account r) (number_told result) img.new × T (valid img.new) × Counted held.new img.new }
{
    if what == 0 {
        changes::save_kept(img, account, r, held)
    } else if what == 1 {
        changes::delete_kept(img, account, r.start, held)
    } else {
        Err(Refusal::Form)
    }
}

// All items, each on what those before it left, refused or not; the counts go along.
fn apply_all(
    img: &mut [u32],
    items: &[u32],
    places: &mut [u32],
    held: &mut [u32; regions::ACCOUNT_COUNT],
)
    requires counted { T (valid img.old) × Counted held.old img.old }
    requires in_bounds { items_in items.now ≤ length places.old }
    ensures { AnswersFirst (items_in items.now) img.old items.now places.old img.new places.new }
{
    let n = items.len() / regions::ITEM_WIDTH;
    for i in 0..n {
        let at = regions::ITEM_WIDTH * i;
        let r = item_region(items, at);
        let answer = apply(img, items[at], items[at + 1], r, held);
        places[i] = regions::number_told(answer);
    }
}

// A batch: saves and deletes in their order, with one test of the image for all of them. Each item has its number in its place.
pub fn batch(img: &mut [u32], items: &[u32], places: &mut [u32]) -> Result<(), Refusal>
    ensures { Batches img.old items.now places.old (number_told result) img.new places.new }
{
    let Some(mut held) = audit::audit(img) else {
        return Err(Refusal::Image);
    };
    if items.len() % regions::ITEM_WIDTH != 0 {
        return Err(Refusal::Form);
    }
    if places.len() < items.len() / regions::ITEM_WIDTH {
        return Err(Refusal::Room);
    }
    apply_all(img, items, places, &mut held);
    Ok(())
}
