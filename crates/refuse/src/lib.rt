// Whether a save or a delete of a valid image may go on: the call's own tests in their order, and the first that fails refuses it.
#![tactic(auto)]

ghost use Rattle.std.specs.Prelude.{◌≡◌, ◌<◌, T, leb, get_or};
ghost use Rattle.regions.specs.Limits.{account_count};
ghost use Rattle.regions.specs.Sets.{held_at, share_of, held_by};
ghost use Rattle.regions.specs.Calls.{save_no, delete_no};
ghost use Rattle.regions.specs.Refusals.{number_told};
ghost use Rattle.image.specs.Read.{set_of};
ghost use Rattle.image.specs.Valid.{valid};

use regions::{Refusal, Region};

// Whether the set has a region that starts there.
fn is_held(img: &[u32], start: u32) -> bool
    requires { T (valid img.now) }
    ensures { result ≡ held_at start (set_of img.now) }
{
    clashes::region_at(img, start).is_some()
}

// Whether an account holds as many regions as its share. They have been counted.
fn is_full(img: &[u32], account: u32, held: [u32; regions::ACCOUNT_COUNT]) -> bool
    requires img_valid { T (valid img.now) }
    requires account_lt_account_count { (account < account_count) × (get_or held account 0 ≡ held_by account (set_of img.now)) }
    ensures { result ≡ leb (share_of account (set_of img.now)) (held_by account (set_of img.now)) }
{
    let a = account as usize;
    let share = words::word(img, 2 + a);
    share <= held[a]
}

// A save; the account's held regions have been counted.
pub fn may_save(
    img: &[u32],
    account: u32,
    r: Region,
    held: [u32; regions::ACCOUNT_COUNT],
) -> Result<(), Refusal>
    requires img_valid { T (valid img.now) }
    requires account_value { account < account_count → get_or held account 0 ≡ held_by account (set_of img.now) }
    ensures { number_told result ≡ save_no (set_of img.now) account r }
{
    if !regions::well_formed(r) {
        return Err(Refusal::Region);
    }
    if regions::foreign(account, r.start) {
        return Err(Refusal::Account);
    }
    if is_held(img, r.start) {
        return Err(Refusal::Held);
    }
    let before = clashes::innermost_at(img, r.start);
    if clashes::crosses_held(img, r, before) {
        return Err(Refusal::Cross);
    }
    if clashes::contradicts_held(img, r, before) {
        return Err(Refusal::Level);
    }
    if is_full(img, account, held) {
        return Err(Refusal::Share);
    }
    Ok(())
}

// A delete of the region that starts at `start`.
pub fn may_delete(img: &[u32], account: u32, start: u32) -> Result<(), Refusal>
    requires { T (valid img.now) }
    ensures { number_told result ≡ delete_no (set_of img.now) account start }
{
    if regions::foreign(account, start) {
        return Err(Refusal::Account);
    }
    if !is_held(img, start) {
        return Err(Refusal::Absent);
    }
    Ok(())
}
