// Reads a listing into two lent images: line by line, the first refusal with its line.
#![tactic(auto)]

ghost use Rattle.std.specs.Prelude.{◌≤◌, ◌≡◌, [], T, length};
ghost use Rattle.pages.specs.Layout.{image_words};
ghost use Rattle.regions.specs.Refusals.{number_told};
ghost use Rattle.image.specs.Read.{set_of};
ghost use Rattle.image.specs.Valid.{valid};
ghost use Rattle.changes.specs.Counts.{Counted};
ghost use Rattle.form.specs.Steps.{Stands};
ghost use Rattle.form.specs.Told.{told, number_heard, line_told};
ghost use Rattle.listing.specs.Promise.{ReadsListing};
ghost use Rattle.listing.specs.Steps.{Takes, RegionsRead, SetRead};

use form::RefusedLine;
use regions::Refusal;

// The bytes of a listing at most.
const MOST_BYTES: usize = 65536;

// Where a section left off: the next line's number and first byte.
#[derive(Clone, Copy, Debug, PartialEq, Eq)]
pub struct Stand {
    pub line: usize,
    pub at: usize,
}

// Saves the region of a line in its start's account, and answers the byte behind the line. The image is valid all along, and the counts are kept, so that nothing is tested again.
fn take_region(
    text: &[u8],
    at: usize,
    img: &mut [u32],
    held: &mut [u32; regions::ACCOUNT_COUNT],
) -> Result<usize, Refusal>
    requires at_in_bounds { at ≤ length text.now }
    requires counted { T (valid img.old) × Counted held.old img.old }
    ensures { Takes text.now at img.old (number_told result) (told (λ next. next) result) held.new img.new }
{
    let Some(l) = form::read_region(text, at) else {
        return Err(Refusal::Form);
    };
    let account = regions::account_of(l.region.start);
    changes::save_kept(img, account, l.region, held)?;
    Ok(l.next)
}

// The regions' section, into an image that holds none yet.
fn read_regions(text: &[u8], line: usize, at: usize, img: &mut [u32]) -> Result<Stand, RefusedLine>
    requires stands { Stands text.now line at }
    requires img_empty { T (valid img.old) × ((set_of img.old).regions ≡ []) }
    ensures { RegionsRead text.now line at img.old (number_heard result) (line_told (λ s. s.line) result) (told (λ s. s.at) result) img.new }
{
    let c = match form::read_count(text, at, regions::MOST_REGIONS) {
        Ok(c) => c,
        Err(refusal) => return Err(RefusedLine { refusal, line }),
    };
    let mut held = [0u32; 16];
    let mut here = c.next;
    let end = line + 1 + c.count;
    for this in line + 1..end {
        here = match take_region(text, here, img, &mut held) {
            Ok(next) => next,
            Err(refusal) => {
                return Err(RefusedLine {
                    refusal,
                    line: this,
                });
            }
        };
    }
    Ok(Stand {
        line: end,
        at: here,
    })
}

// A set: its shares, with which the image is opened, and its regions.
fn read_set(text: &[u8], line: usize, at: usize, img: &mut [u32]) -> Result<Stand, RefusedLine>
    requires stands { Stands text.now line at }
    requires img_len { length img.old ≡ image_words }
    ensures { SetRead text.now line at (number_heard result) (line_told (λ s. s.line) result) (told (λ s. s.at) result) img.new }
{
    let g = form::read_shares(text, line, at)?;
    match index::open_set(img, g.shares) {
        Ok(()) => read_regions(text, g.line, g.at, img),
        Err(refusal) => Err(RefusedLine {
            refusal,
            line: g.line - 1,
        }),
    }
}

// READS A LISTING into two lent images. Both sets are made in images of its own and copied out at the end, since a refusal may leave no lent word changed.
pub fn read_listing(text: &[u8], outer: &mut [u32], inner: &mut [u32]) -> Result<(), RefusedLine>
    ensures { ReadsListing text.now outer.old inner.old (number_heard result) (line_told (λ u. 0) result) outer.new inner.new }
{
    if outer.len() != pages::IMAGE_WORDS || inner.len() != pages::IMAGE_WORDS {
        return Err(RefusedLine {
            refusal: Refusal::Image,
            line: 0,
        });
    }
    if MOST_BYTES < text.len() {
        return Err(RefusedLine {
            refusal: Refusal::Form,
            line: 0,
        });
    }
    let mut first = [0u32; pages::IMAGE_WORDS];
    let mut second = [0u32; pages::IMAGE_WORDS];
    let a = read_set(text, 1, 0, &mut first)?;
    let b = read_set(text, a.line, a.at, &mut second)?;
    if b.at < text.len() {
        return Err(RefusedLine {
            refusal: Refusal::Form,
            line: b.line,
        });
    }
    outer.copy_from_slice(&first);
    inner.copy_from_slice(&second);
    Ok(())
}
