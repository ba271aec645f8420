//! A set of tickets, or one ticket, more for a holder; and the demand for one.
ghost use Rattle.std.specs.Prelude.{◌≡◌, ◌<◌};
ghost use Rattle.model.specs.Refusals.{told, bare};
ghost use Rattle.model.specs.Tickets.{tickets_of, join};
ghost use Rattle.model.specs.State.{stored};
ghost use Rattle.model.specs.Calls.{after, gained, store_answer, answer, step, demand as demanding};

use super::asking::check_parties;
use holdings::HoldingsMut;
use model::{DemandKey, Refusal, Ticket, TicketSet};
use scheme::Scheme;

// Adds a set to what the holder has for the target.
pub(crate) fn gain_set<H: HoldingsMut>(
    holdings: &mut H,
    holder: u32,
    target: u32,
    set: TicketSet,
) -> Result<(), Refusal>
    ensures room { H.HoldingsMut.room holdings.new ≡ H.HoldingsMut.room holdings.old }
    ensures answer { told result ≡ store_answer (H.HoldingsMut.room holdings.old) (H.Holdings.meaning holdings.old) holder target (join ((H.Holdings.meaning holdings.old).tickets holder target) (tickets_of set)) }
    ensures state { H.Holdings.meaning holdings.new ≡ after (told result) (stored (H.Holdings.meaning holdings.old) holder target (join ((H.Holdings.meaning holdings.old).tickets holder target) (tickets_of set))) (H.Holdings.meaning holdings.old) }
{
    let held = holdings.tickets(holder, target);
    holdings.store(holder, target, held.join(set))
}

// Adds a ticket to what the holder has for the target: with the copy flag, both the plain and the copyable one.
pub(crate) fn gain<H: HoldingsMut>(
    holdings: &mut H,
    holder: u32,
    target: u32,
    ticket: Ticket,
) -> Result<(), Refusal>
    requires known { ticket.right < 16 }
    ensures room { H.HoldingsMut.room holdings.new ≡ H.HoldingsMut.room holdings.old }
    ensures answer { told result ≡ store_answer (H.HoldingsMut.room holdings.old) (H.Holdings.meaning holdings.old) holder target (gained (H.Holdings.meaning holdings.old) holder target ticket.right ticket.copy) }
    ensures state { H.Holdings.meaning holdings.new ≡ after (told result) (stored (H.Holdings.meaning holdings.old) holder target (gained (H.Holdings.meaning holdings.old) holder target ticket.right ticket.copy)) (H.Holdings.meaning holdings.old) }
{
    gain_set(holdings, holder, target, TicketSet::of(ticket))
}

// Gives the demander a ticket for the target that the scheme lets it demand.
pub(crate) fn demand<S: Scheme, H: HoldingsMut>(
    scheme: &S,
    holdings: &mut H,
    demander: u32,
    target: u32,
    ticket: Ticket,
) -> Result<(), Refusal>
    ensures room { H.HoldingsMut.room holdings.new ≡ H.HoldingsMut.room holdings.old }
    ensures answer { told result ≡ bare (answer (S.Scheme.meaning scheme.now) (H.HoldingsMut.room holdings.old) (H.Holdings.meaning holdings.old) (demanding demander target ticket.right ticket.copy)) }
    ensures state { H.Holdings.meaning holdings.new ≡ step (S.Scheme.meaning scheme.now) (H.HoldingsMut.room holdings.old) (H.Holdings.meaning holdings.old) (demanding demander target ticket.right ticket.copy) }
{
    let kinds = check_parties(scheme, holdings, demander, target, ticket.right)?;
    let key = DemandKey {
        demander: kinds.holder,
        target: kinds.target,
    };
    if !scheme.demand(key).has(ticket) {
        return Err(Refusal::NotDemandable);
    }
    gain(holdings, demander, target, ticket)
}
