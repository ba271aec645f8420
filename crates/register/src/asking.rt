//! The question whether a ticket is held, and the checks that it shares with the calls.
ghost use Rattle.std.specs.Prelude.{◌≡◌, IfOk};
ghost use Rattle.model.specs.Refusals.{told, bare};
ghost use Rattle.model.specs.State.{kind};
ghost use Rattle.model.specs.Calls.{passed, party_checks, question_answer};

use holdings::Holdings;
use model::{Refusal, Ticket};
use scheme::Scheme;

// The kinds of a ticket's holder and of its target.
#[derive(Clone, Copy, Debug, PartialEq, Eq)]
pub(crate) struct Parties {
    pub holder: u8,
    pub target: u8,
}

// What most calls check first: holder and target stand, the holder is a subject, and the scheme has the right.
pub(crate) fn check_parties<S: Scheme, H: Holdings>(
    scheme: &S,
    holdings: &mut H,
    holder: u32,
    target: u32,
    right: u8,
) -> Result<Parties, Refusal>
    ensures same { holdings.new ≡ holdings.old }
    ensures answer { bare (told result) ≡ passed (party_checks (S.Scheme.meaning scheme.now) (H.Holdings.meaning holdings.old) holder target right) }
    ensures kinds { IfOk result (λ k. (k.holder ≡ kind (H.Holdings.meaning holdings.old) holder) × (k.target ≡ kind (H.Holdings.meaning holdings.old) target)) }
{
    let parties = Parties {
        holder: holdings.find(holder).ok_or(Refusal::NotStanding)?,
        target: holdings.find(target).ok_or(Refusal::NotStanding)?,
    };
    if !scheme.is_subject(parties.holder) {
        return Err(Refusal::NotSubject);
    }
    if right >= scheme.rights() {
        return Err(Refusal::UnknownRight);
    }
    Ok(parties)
}

/// Whether the holder has the ticket for the target. Refused where holder or target does not stand, where the holder
/// is no subject, and where the scheme has no such right. It serves whatever can be read.
pub fn question<S: Scheme, H: Holdings>(
    scheme: &S,
    holdings: &mut H,
    holder: u32,
    target: u32,
    ticket: Ticket,
) -> Result<bool, Refusal>
    ensures same { holdings.new ≡ holdings.old }
    ensures answer { told result ≡ question_answer (S.Scheme.meaning scheme.now) (H.Holdings.meaning holdings.old) holder target ticket.right ticket.copy }
{
    check_parties(scheme, holdings, holder, target, ticket.right)?;
    Ok(holdings.tickets(holder, target).has(ticket))
}
