//! The parents of a child that is to be created, and the rule by which they create it.
ghost use Rattle.std.specs.Prelude.{◌≡◌, is_some, IfSome, IfOk, Some};
ghost use Rattle.std.specs.Option.{option_map};
ghost use Rattle.model.specs.Refusals.{told, bare};
ghost use Rattle.model.specs.Scheme.{is_for, same_second, rule_number, part_of, rule_of};
ghost use Rattle.model.specs.State.{kind, standing};
ghost use Rattle.model.specs.Calls.{each, passed, rule_for, rule_found};
ghost use Rattle.register.specs.Births.{rule_checks};

use holdings::Holdings;
use model::{Refusal, Rule};
use scheme::Scheme;

// A child's parents, in order: their numbers, or their kinds.
#[derive(Clone, Copy, Debug, PartialEq, Eq)]
pub(crate) struct Parents<T> {
    pub first: T,
    pub second: Option<T>,
}

// The parents' kinds, where all of them stand.
fn parent_kinds<H: Holdings>(holdings: &mut H, parents: Parents<u32>) -> Option<Parents<u8>>
    ensures same { holdings.new ≡ holdings.old }
    ensures stand { is_some result ≡ each (standing (H.Holdings.meaning holdings.old)) parents.first parents.second }
    ensures kinds { IfSome result (λ k. (k.first ≡ kind (H.Holdings.meaning holdings.old) parents.first) × (k.second ≡ option_map (kind (H.Holdings.meaning holdings.old)) parents.second)) }
{
    let first = holdings.find(parents.first)?;
    let second = match parents.second {
        Some(number) => Some(holdings.find(number)?),
        None => None,
    };
    Some(Parents { first, second })
}

// Whether all the parents are subjects.
fn are_subjects<S: Scheme>(scheme: &S, parents: Parents<u8>) -> bool
    ensures { result ≡ each (S.Scheme.meaning scheme.now).subject parents.first parents.second }
{
    match parents.second {
        Some(second) => scheme.is_subject(parents.first) && scheme.is_subject(second),
        None => scheme.is_subject(parents.first),
    }
}

// Whether a rule is for these parents, in this order, and a child of this kind.
fn is_for(rule: Rule, parents: Parents<u8>, child: u8) -> bool
    ensures { result ≡ is_for (rule_of rule) parents.first parents.second child }
{
    rule.first.kind == parents.first
        && rule.second.map(|part| part.kind) == parents.second
        && rule.child == child
}

// The scheme's rule for these parents and a child of this kind.
fn rule_for<S: Scheme>(scheme: &S, parents: Parents<u8>, child: u8) -> Option<Rule>
    ensures { option_map rule_of result ≡ rule_found (S.Scheme.meaning scheme.now) (rule_number (S.Scheme.meaning scheme.now).rules 0 parents.first parents.second child) }
{
    // By number, with a `for`: a chain of `filter_map` and `find` was tried, and its proof did not close.
    for number in 0..scheme.rules() {
        if let Some(rule) = scheme.rule(number) {
            if is_for(rule, parents, child) {
                return Some(rule);
            }
        }
    }
    None
}

// The rule by which the parents create a child of this kind. Refused where one of them does not stand, where one is no
// subject, where the scheme has no such kind, and where it has no rule for them.
pub(crate) fn rule_by_parents<S: Scheme, H: Holdings>(
    scheme: &S,
    holdings: &mut H,
    parents: Parents<u32>,
    child: u8,
) -> Result<Rule, Refusal>
    ensures same { holdings.new ≡ holdings.old }
    ensures answer { bare (told result) ≡ passed (rule_checks (S.Scheme.meaning scheme.now) (H.Holdings.meaning holdings.old) parents.first parents.second child) }
    ensures rule { IfOk result (λ v. rule_found (S.Scheme.meaning scheme.now) (rule_for (S.Scheme.meaning scheme.now) (H.Holdings.meaning holdings.old) parents.first parents.second child) ≡ Some (rule_of v)) }
{
    let kinds = parent_kinds(holdings, parents).ok_or(Refusal::NotStanding)?;
    if !are_subjects(scheme, kinds) {
        return Err(Refusal::NotSubject);
    }
    if child >= scheme.kinds() {
        return Err(Refusal::UnknownKind);
    }
    rule_for(scheme, kinds, child).ok_or(Refusal::NoRule)
}
