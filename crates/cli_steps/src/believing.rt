//! Fingerprints that come, and those that are forgotten.
ghost use Rattle.std.specs.Prelude.{◌≡◌};
ghost use Rattle.cli_steps.specs.State.{forgetting};
ghost use Rattle.cli_steps.specs.Steps.{BelievesMore};
ghost use Rattle.cli_steps.specs.Ways.{Steps};

use crate::answer::SessionAnswer;
use crate::keeper::Keeper;
use crate::party::Party;
use cli_failures::Failure;

/// Believes one fingerprint more.
pub(crate) fn believe<'a, K: Keeper>(party: &mut Party<K>, print: [u8; 32]) -> SessionAnswer<'a>
    ensures keeper { party.new.keeper ≡ party.old.keeper }
    ensures steps { Steps party.old.believed (K.keeps party.old.keeper)
        party.new.believed (K.keeps party.old.keeper)
        (λ old new. BelievesMore print old new result) }
{
    match party.believed.believe(print) {
        Ok(()) => SessionAnswer::Believes,
        Err(_) => SessionAnswer::Failed(Failure::NoMemory),
    }
}

/// Forgets the fingerprints that came.
pub(crate) fn forget<K: Keeper>(party: &mut Party<K>)
    ensures keeper { party.new.keeper ≡ party.old.keeper }
    ensures steps { Steps party.old.believed (K.keeps party.old.keeper)
        party.new.believed (K.keeps party.old.keeper)
        (λ old new. new ≡ forgetting old) }
{
    party.believed.forget();
}
