// Do credentials still hold?
ghost use Rattle.std.specs.Prelude.{◌≡◌};
ghost use Rattle.authinfo.specs.Expiry as spec;

use crate::Time;
use rule::Refusal;

const NANOSECONDS: u64 = 999_999_999;

// "Expired: expiry below now; equal isn't; none never."
#[tactic(auto, unfolding(crate::specs::Expiry::expiry_says, crate::specs::Expiry::expiry, crate::specs::Expiry::over_nanoseconds, crate::specs::Expiry::expiry_over, crate::specs::Expiry::is_expired, crate::specs::Expiry::below, rule::specs::Refusals::number))]
pub fn expired(expiry: Option<Time>, now: Time) -> Result<bool, Refusal>
    ensures { spec.expiry_says result ≡ spec.expiry expiry now }
{
    if NANOSECONDS < now.nanoseconds {
        return Err(Refusal::OutOfRange);
    }
    let Some(expiry) = expiry else {
        return Ok(false);
    };
    if NANOSECONDS < expiry.nanoseconds {
        return Err(Refusal::OutOfRange);
    }
    Ok(expiry < now)
}
