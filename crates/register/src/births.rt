//! A creation once its rule is known: each parent's share, how many pairs it fills, and the tickets that it gives.
ghost use Rattle.std.specs.Prelude.{◌≡◌, ◌+◌, ◌≤◌, true, IfSome};
ghost use Rattle.model.specs.Tickets.{tickets_of};
ghost use Rattle.model.specs.Scheme.{part_of, rule_of};
ghost use Rattle.model.specs.State.{standing, gain, holding, filled, takes_beside};
ghost use Rattle.register.specs.Births.{join_parts, give_share, birth_table, brought, share_pairs, ByRule, ParentsStand};

use super::gains::gain_set;
use super::parents::Parents;
use holdings::{Holdings, HoldingsMut};
use model::{Part, Rule, TicketSet};

// One parent's share in a birth: its part in the rule.
#[derive(Clone, Copy, Debug, PartialEq, Eq)]
pub(crate) struct Share {
    pub parent: u32,
    pub part: Part,
}

// What a creation makes: the child's kind, the share of each entity that is a parent, and the child's tickets for itself.
#[derive(Clone, Copy, Debug, PartialEq, Eq)]
pub(crate) struct Birth {
    pub first: Share,
    pub second: Option<Share>,
    pub child: u8,
    pub own: TicketSet,
}

// Both parts of one entity that is both parents.
fn joined(first: Part, second: Part) -> Part
    ensures { part_of result ≡ join_parts (part_of first) (part_of second) }
{
    Part {
        kind: first.kind,
        for_child: first.for_child.join(second.for_child),
        for_self: first.for_self.join(second.for_self),
        to_child: first.to_child.join(second.to_child),
    }
}

impl Birth {
    // The birth of a child by these parents under a rule. One entity that is both parents has one share.
    pub fn by(rule: Rule, parents: Parents<u32>) -> Birth
        ensures { ByRule (rule_of rule) parents.first parents.second result }
    {
        let parent = parents.first;
        let mut birth = Birth {
            first: Share {
                parent,
                part: rule.first,
            },
            second: None,
            child: rule.child,
            own: rule.own,
        };
        if let Some(part) = rule.second {
            if let Some(other) = parents.second {
                if other == parent {
                    birth.first.part = joined(rule.first, part);
                } else {
                    birth.second = Some(Share {
                        parent: other,
                        part,
                    });
                }
            }
        }
        birth
    }
}

// How many pairs a set fills beside what is held: one where nothing is held and the set is not empty.
fn pairs_beside(held: TicketSet, set: TicketSet) -> usize
    ensures { result ≡ takes_beside (tickets_of held) (tickets_of set) }
{
    usize::from(held.is_empty() && !set.is_empty())
}

// How many pairs a share fills: there are no tickets for the child or by it yet.
fn share_pairs<H: Holdings>(holdings: &mut H, share: Share) -> usize
    ensures same { holdings.new ≡ holdings.old }
    ensures few { result ≤ 3 }
    ensures value { result ≡ share_pairs (H.Holdings.meaning holdings.old).tickets share }
{
    let nothing = TicketSet::none();
    let own = holdings.tickets(share.parent, share.parent);
    pairs_beside(nothing, share.part.for_child)
        + pairs_beside(own, share.part.for_self)
        + pairs_beside(nothing, share.part.to_child)
}

// How many pairs a birth fills.
pub(crate) fn birth_pairs<H: Holdings>(holdings: &mut H, birth: Birth) -> usize
    requires parents { ParentsStand (H.Holdings.meaning holdings.old) birth }
    ensures same { holdings.new ≡ holdings.old }
    ensures value { filled (H.Holdings.meaning holdings.old) + result ≡ filled (brought (H.Holdings.meaning holdings.old) birth) }
{
    let first = share_pairs(holdings, birth.first);
    let second = match birth.second {
        Some(share) => share_pairs(holdings, share),
        None => 0,
    };
    first + second + pairs_beside(TicketSet::none(), birth.own)
}

// Gives the holder a set for the target, beside what it has. There is a pair for it.
fn give<H: HoldingsMut>(holdings: &mut H, holder: u32, target: u32, set: TicketSet)
    requires holder { standing (H.Holdings.meaning holdings.old) holder ≡ true }
    requires target { standing (H.Holdings.meaning holdings.old) target ≡ true }
    requires fits { filled (holding (H.Holdings.meaning holdings.old) (gain (H.Holdings.meaning holdings.old).tickets holder target (tickets_of set))) ≤ (H.HoldingsMut.room holdings.old).pairs }
    ensures room { H.HoldingsMut.room holdings.new ≡ H.HoldingsMut.room holdings.old }
    ensures state { H.Holdings.meaning holdings.new ≡ holding (H.Holdings.meaning holdings.old) (gain (H.Holdings.meaning holdings.old).tickets holder target (tickets_of set)) }
{
    let _ = gain_set(holdings, holder, target, set);
}

// Gives parent and child what the parent's share has for them. There are pairs for it.
fn give_share<H: HoldingsMut>(holdings: &mut H, share: Share, child: u32)
    requires parent { standing (H.Holdings.meaning holdings.old) share.parent ≡ true }
    requires child { standing (H.Holdings.meaning holdings.old) child ≡ true }
    requires fits { filled (holding (H.Holdings.meaning holdings.old) (give_share (H.Holdings.meaning holdings.old).tickets share child)) ≤ (H.HoldingsMut.room holdings.old).pairs }
    ensures room { H.HoldingsMut.room holdings.new ≡ H.HoldingsMut.room holdings.old }
    ensures state { H.Holdings.meaning holdings.new ≡ holding (H.Holdings.meaning holdings.old) (give_share (H.Holdings.meaning holdings.old).tickets share child) }
{
    give(holdings, share.parent, child, share.part.for_child);
    give(holdings, share.parent, share.parent, share.part.for_self);
    give(holdings, child, share.parent, share.part.to_child);
}

// Gives the parents and the child, which stands, what a birth has for them. There are pairs for it.
pub(crate) fn give_birth<H: HoldingsMut>(holdings: &mut H, birth: Birth, child: u32)
    requires first { standing (H.Holdings.meaning holdings.old) birth.first.parent ≡ true }
    requires second { IfSome birth.second (λ s. standing (H.Holdings.meaning holdings.old) s.parent ≡ true) }
    requires child { standing (H.Holdings.meaning holdings.old) child ≡ true }
    requires fits { filled (holding (H.Holdings.meaning holdings.old) (birth_table (H.Holdings.meaning holdings.old).tickets birth child)) ≤ (H.HoldingsMut.room holdings.old).pairs }
    ensures room { H.HoldingsMut.room holdings.new ≡ H.HoldingsMut.room holdings.old }
    ensures state { H.Holdings.meaning holdings.new ≡ holding (H.Holdings.meaning holdings.old) (birth_table (H.Holdings.meaning holdings.old).tickets birth child) }
{
    give_share(holdings, birth.first, child);
    if let Some(share) = birth.second {
        give_share(holdings, share, child);
    }
    give(holdings, child, child, birth.own);
}
