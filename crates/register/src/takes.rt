//! What takes tickets away: dropping one, and retiring an entity.
ghost use Rattle.std.specs.Prelude.{◌≡◌};
ghost use Rattle.model.specs.Refusals.{told, bare};
ghost use Rattle.model.specs.Scheme.{Scheme as Meaning};
ghost use Rattle.model.specs.Calls.{answer, step, drop as dropping, retire as retiring};

use super::asking::check_parties;
use holdings::HoldingsMut;
use model::{Refusal, Ticket};
use scheme::Scheme;

// Takes a right for the target from the holder, plain and copyable.
pub(crate) fn drop_ticket<S: Scheme, H: HoldingsMut>(
    scheme: &S,
    holdings: &mut H,
    holder: u32,
    target: u32,
    right: u8,
) -> Result<(), Refusal>
    ensures room { H.HoldingsMut.room holdings.new ≡ H.HoldingsMut.room holdings.old }
    ensures answer { told result ≡ bare (answer (S.Scheme.meaning scheme.now) (H.HoldingsMut.room holdings.old) (H.Holdings.meaning holdings.old) (dropping holder target right)) }
    ensures state { H.Holdings.meaning holdings.new ≡ step (S.Scheme.meaning scheme.now) (H.HoldingsMut.room holdings.old) (H.Holdings.meaning holdings.old) (dropping holder target right) }
{
    check_parties(scheme, holdings, holder, target, right)?;
    let held = holdings.tickets(holder, target);
    if !held.has(Ticket { right, copy: false }) {
        return Err(Refusal::NotHeld);
    }
    holdings.store(holder, target, held.without(right))
}

// Takes out an entity, with all that it holds and all tickets for it. It is the same under every scheme.
pub(crate) fn retire<H: HoldingsMut>(holdings: &mut H, entity: u32) -> Result<(), Refusal>
    ensures room { H.HoldingsMut.room holdings.new ≡ H.HoldingsMut.room holdings.old }
    ensures answer { (S : Meaning) → told result ≡ bare (answer S (H.HoldingsMut.room holdings.old) (H.Holdings.meaning holdings.old) (retiring entity)) }
    ensures state { (S : Meaning) → H.Holdings.meaning holdings.new ≡ step S (H.HoldingsMut.room holdings.old) (H.Holdings.meaning holdings.old) (retiring entity) }
{
    holdings.find(entity).ok_or(Refusal::NotStanding)?;
    holdings.remove(entity);
    Ok(())
}
