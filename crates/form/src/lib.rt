// The form of a listing, and the readers of its lines: a section's count, an account with its share, a region. Each line is read from a place of the text, and refused by its form or its numbers.
#![tactic(auto)]

ghost use Rattle.std.specs.Prelude.{◌≡◌, ◌≤◌, length, MatchOption};
ghost use Rattle.regions.specs.Refusals.{number_told};
ghost use Rattle.form.specs.Form.{Shares};
ghost use Rattle.form.specs.Readers.{CountRead, ShareRead, NoRegion, RegionRead};
ghost use Rattle.form.specs.Steps.{Stands, SharesRead};
ghost use Rattle.form.specs.Told.{told, number_heard, line_told, shares_told};

use regions::{Refusal, Region};

// Why a text was refused, and at which line.
#[derive(Clone, Copy, Debug, PartialEq, Eq)]
pub struct RefusedLine {
    pub refusal: Refusal,
    pub line: usize,
}

// A section's count, and the byte behind its line.
#[derive(Clone, Copy, Debug, PartialEq, Eq)]
pub struct Count {
    pub count: usize,
    pub next: usize,
}

pub fn read_count(text: &[u8], at: usize, most: u32) -> Result<Count, Refusal>
    requires { at ≤ length text.now }
    ensures { CountRead text.now at most (number_told result) (told (λ c. c.count) result) (told (λ c. c.next) result) }
{
    let Some(l) = lines::read_line(text, at, 1) else {
        return Err(Refusal::Form);
    };
    let count = l.numbers[0];
    if most < count {
        return Err(Refusal::Form);
    }
    Ok(Count {
        count: count as usize,
        next: l.next,
    })
}

// A share line, and the byte behind it.
#[derive(Clone, Copy, Debug, PartialEq, Eq)]
pub struct ShareLine {
    pub account: u32,
    pub share: u32,
    pub next: usize,
}

// Accounts ascend: `from` is the least that may come.
fn read_share(text: &[u8], at: usize, from: u32) -> Result<ShareLine, Refusal>
    requires { at ≤ length text.now }
    ensures { (s : Shares) → s.from ≡ from → ShareRead text.now at s (number_told result) (told (λ l. l.account) result) (told (λ l. l.share) result) (told (λ l. l.next) result) }
{
    let Some(l) = lines::read_line(text, at, 2) else {
        return Err(Refusal::Form);
    };
    let account = l.numbers[0];
    let share = l.numbers[1];
    if account < from {
        return Err(Refusal::Form);
    }
    if share == 0 {
        return Err(Refusal::Form);
    }
    if regions::LAST_ACCOUNT < account {
        return Err(Refusal::Account);
    }
    Ok(ShareLine {
        account,
        share,
        next: l.next,
    })
}

// A region line, and the byte behind it.
#[derive(Clone, Copy, Debug, PartialEq, Eq)]
pub struct RegionLine {
    pub region: Region,
    pub next: usize,
}

pub fn read_region(text: &[u8], at: usize) -> Option<RegionLine>
    requires { at ≤ length text.now }
    ensures { MatchOption result (NoRegion text.now at) (λ l. RegionRead text.now at l.region l.next) }
{
    let l = lines::read_line(text, at, 4)?;
    let ns = l.numbers;
    let region = Region {
        start: ns[0],
        end: ns[1],
        level: ns[2],
        reference: ns[3],
    };
    Some(RegionLine {
        region,
        next: l.next,
    })
}

// The shares that a section gave, and where it left off.
#[derive(Clone, Copy, Debug, PartialEq, Eq)]
pub struct Given {
    pub line: usize,
    pub at: usize,
    pub shares: [u32; regions::ACCOUNT_COUNT],
    pub from: u32,
}

pub fn read_shares(text: &[u8], line: usize, at: usize) -> Result<Given, RefusedLine>
    requires { Stands text.now line at }
    ensures { SharesRead text.now line at (number_heard result) (line_told (λ g. g.line) result) (told (λ g. g.at) result) (shares_told result) }
{
    let c = match read_count(text, at, 16) {
        Ok(c) => c,
        Err(refusal) => return Err(RefusedLine { refusal, line }),
    };
    let mut shares = [0u32; 16];
    let mut from: u32 = 0;
    let mut here = c.next;
    let end = line + 1 + c.count;
    for this in line + 1..end {
        let s = match read_share(text, here, from) {
            Ok(s) => s,
            Err(refusal) => {
                return Err(RefusedLine {
                    refusal,
                    line: this,
                });
            }
        };
        shares[s.account as usize] = s.share;
        from = s.account + 1;
        here = s.next;
    }
    Ok(Given {
        line: end,
        at: here,
        shares,
        from,
    })
}
