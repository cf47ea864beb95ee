// Decides whether an image is valid, exactly and of any words: its shape, then its regions, then its lists; each part leans on the ones before.
#![tactic(auto)]

ghost use Rattle.std.specs.Prelude.{◌≡◌, [], is_some, unwrap_or};
ghost use Rattle.image.specs.Valid.{valid};
ghost use Rattle.audit.specs.Report.{Reports};

// Where the image is valid, how many regions each account holds, so that a save need not count again.
pub fn audit(img: &[u32]) -> Option<[u32; regions::ACCOUNT_COUNT]>
    ensures { Reports img.now (is_some result) (unwrap_or result []) }
{
    if !shape::shaped(img) {
        return None;
    }
    let held = census::take_census(img)?;
    if !stablists::lists_right(img) {
        return None;
    }
    Some(held)
}

// Whether the image is valid. Every call but an opening asks this first.
pub fn is_valid(img: &[u32]) -> bool
    ensures { result ≡ valid img.now }
{
    audit(img).is_some()
}
