//! When a share of a limit is passed.

ghost use Rattle.std.specs.Prelude.{◌≡◌, ◌*◌, nat_le};
ghost use Rattle.gx_warnings.specs.Warnings.{passes};

/// More than 255 hundredths of any limit.
const PLENTY: u128 = 1 << 72;

/// Whether so much is no less than so many hundredths of the limit.
#[tactic(auto, using(crate::proofs::Share_bounds::plenty_is_enough))]
fn is_at(share: u8, used: u128, limit: u64) -> bool
    ensures { result ≡ nat_le (share * limit) (used * 100) }
{
    if used >= PLENTY {
        return true;
    }
    u128::from(share) * u128::from(limit) <= used * 100
}

/// Whether so much is above 0, and no less than so many hundredths of the limit.
pub(crate) fn passes(share: u8, used: u128, limit: Option<u64>) -> bool
    ensures { result ≡ passes share used limit }
{
    match limit {
        Some(limit) => used > 0 && is_at(share, used, limit),
        None => false,
    }
}
