//! Copying: its three parties, what links see, the lowest link that passes a ticket, and the copy itself.
ghost use Rattle.std.specs.Prelude.{◌≡◌, IfOk};
ghost use Rattle.model.specs.Refusals.{told, bare};
ghost use Rattle.model.specs.State.{kind};
ghost use Rattle.model.specs.Calls.{passed, sight, answer, step, copy as copying};
ghost use Rattle.register.specs.Passing.{copy_party_checks, lowest_answer};

use super::gains::gain;
use holdings::{Holdings, HoldingsMut};
use model::{FilterKey, Refusal, Sight, Ticket};
use scheme::Scheme;

// The kinds of a copy's giver, taker and target.
#[derive(Clone, Copy, Debug, PartialEq, Eq)]
struct CopyParties {
    pub giver: u8,
    pub taker: u8,
    pub target: u8,
}

// What a copy checks first: giver, taker and target stand, giver and taker are subjects, and the scheme has the right. Apart from
// `check_parties`: for any number of parties it would take a list of them and of those that are to be subjects, and be no plainer.
fn check_copy_parties<S: Scheme, H: Holdings>(
    scheme: &S,
    holdings: &mut H,
    giver: u32,
    taker: u32,
    target: u32,
    right: u8,
) -> Result<CopyParties, Refusal>
    ensures same { holdings.new ≡ holdings.old }
    ensures answer { bare (told result) ≡ passed (copy_party_checks (S.Scheme.meaning scheme.now) (H.Holdings.meaning holdings.old) giver taker target right) }
    ensures kinds { IfOk result (λ k. (k.giver ≡ kind (H.Holdings.meaning holdings.old) giver) × (k.taker ≡ kind (H.Holdings.meaning holdings.old) taker) × (k.target ≡ kind (H.Holdings.meaning holdings.old) target)) }
{
    let parties = CopyParties {
        giver: holdings.find(giver).ok_or(Refusal::NotStanding)?,
        taker: holdings.find(taker).ok_or(Refusal::NotStanding)?,
        target: holdings.find(target).ok_or(Refusal::NotStanding)?,
    };
    if !(scheme.is_subject(parties.giver) && scheme.is_subject(parties.taker)) {
        return Err(Refusal::NotSubject);
    }
    if right >= scheme.rights() {
        return Err(Refusal::UnknownRight);
    }
    Ok(parties)
}

// What a link from one entity to another looks at: their control rights for themselves and each other.
fn sight<S: Scheme, H: Holdings>(scheme: &S, holdings: &mut H, x: u32, y: u32) -> Sight
    ensures same { holdings.new ≡ holdings.old }
    ensures value { result ≡ sight (S.Scheme.meaning scheme.now) (H.Holdings.meaning holdings.old) x y }
{
    let control = scheme.control();
    Sight {
        xx: holdings.tickets(x, x).plain() & control,
        xy: holdings.tickets(x, y).plain() & control,
        yx: holdings.tickets(y, x).plain() & control,
        yy: holdings.tickets(y, y).plain() & control,
    }
}

// The lowest link that holds and whose filter passes the ticket. Refused where no link holds, and then where none
// that holds passes it.
fn lowest_link<S: Scheme>(
    scheme: &S,
    sight: Sight,
    kinds: CopyParties,
    ticket: Ticket,
) -> Result<u8, Refusal>
    ensures { told result ≡ lowest_answer (S.Scheme.meaning scheme.now) sight kinds.giver kinds.taker kinds.target ticket.right ticket.copy }
{
    let CopyParties {
        giver,
        taker,
        target,
    } = kinds;
    let mut refusal = Refusal::NoLink;
    // By number: a scheme hands out no list of its links, and of those that hold the first that passes or none at all is wanted.
    for link in 0..scheme.links() {
        if scheme.link(link, sight) {
            let key = FilterKey {
                link,
                giver,
                taker,
                target,
            };
            if scheme.filter(key).has(ticket) {
                return Ok(link);
            }
            refusal = Refusal::NotPassed;
        }
    }
    Err(refusal)
}

// Copies a ticket for the target from the giver to the taker.
pub(crate) fn copy<S: Scheme, H: HoldingsMut>(
    scheme: &S,
    holdings: &mut H,
    giver: u32,
    taker: u32,
    target: u32,
    ticket: Ticket,
) -> Result<u8, Refusal>
    ensures room { H.HoldingsMut.room holdings.new ≡ H.HoldingsMut.room holdings.old }
    ensures answer { told result ≡ answer (S.Scheme.meaning scheme.now) (H.HoldingsMut.room holdings.old) (H.Holdings.meaning holdings.old) (copying giver taker target ticket.right ticket.copy) }
    ensures state { H.Holdings.meaning holdings.new ≡ step (S.Scheme.meaning scheme.now) (H.HoldingsMut.room holdings.old) (H.Holdings.meaning holdings.old) (copying giver taker target ticket.right ticket.copy) }
{
    let kinds = check_copy_parties(scheme, holdings, giver, taker, target, ticket.right)?;
    let copyable = Ticket {
        right: ticket.right,
        copy: true,
    };
    if !holdings.tickets(giver, target).has(copyable) {
        return Err(Refusal::NotCopyable);
    }
    let seen = sight(scheme, holdings, giver, taker);
    let link = lowest_link(scheme, seen, kinds, ticket)?;
    gain(holdings, taker, target, ticket)?;
    Ok(link)
}
