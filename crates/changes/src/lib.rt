// Save and delete on an image that is known to be valid: refused by the call's own tests, and then no word changes, or done.
#![tactic(auto)]

ghost use Rattle.std.specs.Prelude.{◌≡◌, ◌<◌, T, get_or, OnErr};
ghost use Rattle.regions.specs.Limits.{account_count};
ghost use Rattle.regions.specs.Sets.{held_by};
ghost use Rattle.regions.specs.Refusals.{number_told};
ghost use Rattle.image.specs.Read.{set_of};
ghost use Rattle.image.specs.Valid.{valid};
ghost use Rattle.changes.specs.Changed.{SavesIn, DeletesIn};
ghost use Rattle.changes.specs.Counts.{Counted};

use regions::{Refusal, Region};

// A save; the account's held regions have been counted.
pub fn save(
    img: &mut [u32],
    account: u32,
    r: Region,
    held: [u32; regions::ACCOUNT_COUNT],
) -> Result<(), Refusal>
    requires img_valid { T (valid img.old) }
    requires account_value { account < account_count → get_or held account 0 ≡ held_by account (set_of img.old) }
    ensures { SavesIn img.old account r (number_told result) img.new }
{
    refuse::may_save(img, account, r, held)?;
    insert::insert(img, r);
    Ok(())
}

// A delete of the region that starts at `start`.
pub fn delete(img: &mut [u32], account: u32, start: u32) -> Result<(), Refusal>
    requires { T (valid img.old) }
    ensures { DeletesIn img.old account start (number_told result) img.new }
{
    refuse::may_delete(img, account, start)?;
    remove::remove(img, start);
    Ok(())
}

// WHO CHANGES MUCH keeps the counts from one call to the next, so that nothing is tested again. Of a call that is refused they stay as they were.
pub fn save_kept(
    img: &mut [u32],
    account: u32,
    r: Region,
    held: &mut [u32; regions::ACCOUNT_COUNT],
) -> Result<(), Refusal>
    requires { T (valid img.old) × Counted held.old img.old }
    ensures saves { SavesIn img.old account r (number_told result) img.new × T (valid img.new) × Counted held.new img.new }
    ensures kept { OnErr result (held.new ≡ held.old) }
{
    save(img, account, r, *held)?;
    held[account as usize] += 1;
    Ok(())
}

// A delete that keeps them.
pub fn delete_kept(
    img: &mut [u32],
    account: u32,
    start: u32,
    held: &mut [u32; regions::ACCOUNT_COUNT],
) -> Result<(), Refusal>
    requires { T (valid img.old) × Counted held.old img.old }
    ensures deletes { DeletesIn img.old account start (number_told result) img.new × T (valid img.new) × Counted held.new img.new }
    ensures kept { OnErr result (held.new ≡ held.old) }
{
    delete(img, account, start)?;
    held[account as usize] -= 1;
    Ok(())
}
