//! What a creation checks before anything changes.
ghost use Rattle.std.specs.Prelude.{◌≡◌, IfOk};
ghost use Rattle.model.specs.Refusals.{told, bare};
ghost use Rattle.model.specs.Calls.{passed, checks, child_state, answer, step, create as creation};
ghost use Rattle.register.specs.Births.{brought, ParentsStand};

use super::births::{Birth, birth_pairs, give_birth};
use super::parents::{Parents, rule_by_parents};
use holdings::HoldingsMut;
use model::Refusal;
use scheme::Scheme;

// The birth of a child of this kind by these parents. Refused where one of them does not stand, where one is no subject,
// where the scheme has no such kind, where it has no rule for them, where all rows are taken, where all numbers have
// been given, and where there is no room for the pairs.
fn check_creation<S: Scheme, H: HoldingsMut>(
    scheme: &S,
    holdings: &mut H,
    parents: Parents<u32>,
    kind: u8,
) -> Result<Birth, Refusal>
    ensures same { holdings.new ≡ holdings.old }
    ensures answer { bare (told result) ≡ passed (checks (S.Scheme.meaning scheme.now) (H.HoldingsMut.room holdings.old) (H.Holdings.meaning holdings.old) (creation parents.first parents.second kind)) }
    ensures birth { IfOk result (λ v. ParentsStand (H.Holdings.meaning holdings.old) v × (brought (H.Holdings.meaning holdings.old) v ≡ child_state (S.Scheme.meaning scheme.now) (H.Holdings.meaning holdings.old) parents.first parents.second kind)) }
{
    let rule = rule_by_parents(scheme, holdings, parents, kind)?;
    holdings.has_row()?;
    let birth = Birth::by(rule, parents);
    let more = birth_pairs(holdings, birth);
    if !holdings.has_pairs(more) {
        return Err(Refusal::PairsTaken);
    }
    Ok(birth)
}

// Creates a child of this kind by these parents, and answers its number.
pub(crate) fn create<S: Scheme, H: HoldingsMut>(
    scheme: &S,
    holdings: &mut H,
    parents: Parents<u32>,
    kind: u8,
) -> Result<u32, Refusal>
    ensures room { H.HoldingsMut.room holdings.new ≡ H.HoldingsMut.room holdings.old }
    ensures answer { told result ≡ answer (S.Scheme.meaning scheme.now) (H.HoldingsMut.room holdings.old) (H.Holdings.meaning holdings.old) (creation parents.first parents.second kind) }
    ensures state { H.Holdings.meaning holdings.new ≡ step (S.Scheme.meaning scheme.now) (H.HoldingsMut.room holdings.old) (H.Holdings.meaning holdings.old) (creation parents.first parents.second kind) }
{
    let birth = check_creation(scheme, holdings, parents, kind)?;
    let child = holdings.add(birth.child)?;
    give_birth(holdings, birth, child);
    Ok(child)
}
