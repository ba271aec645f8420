//! The card scheme: persons put cards into folders, and pass folders on through yards.
ghost use Rattle.std.specs.Prelude.{◌≡◌};
ghost use Rattle.model.specs.Scheme.{rule_of};
ghost use Rattle.scheme.specs.Card.{card_scheme, creates};
ghost use Rattle.scheme.specs.CardLawful.{card_well_formed};
ghost use Rattle.scheme.specs.CardNames.{kind_number};
ghost use Rattle.scheme.specs.Tables.{tickets_in};

use super::asked::Scheme;
use super::card_names::CardKind::{self, Card, Folder, Person, Yard};
use super::card_names::CardLink::{self, Owner, TakeGrant};
use super::card_names::CardRight::{Grant, Own, Read, Take, Write};
use super::tables::{Entry, look_up};
use model::{DemandKey, FilterKey, Part, Rule, Sight, StoredSet, TicketSet};

// How many types, rights and links there are. Numbers: an enum does not tell how many it has.
const KINDS: u8 = 4;

const RIGHTS: u8 = 5;

const LINKS: u8 = 2;

// A rule with one parent: what the parent gets for the child, and the child for the parent. Neither gets anything for itself.
#[derive(Clone, Copy, Debug, PartialEq, Eq)]
struct RuleEntry {
    parent: CardKind,
    child: CardKind,
    for_child: StoredSet,
    to_child: StoredSet,
}

impl From<RuleEntry> for Rule {
    ghost from_gives = { λ entry rule. rule_of rule
        ≡ creates (kind_number entry.parent) (kind_number entry.child) (tickets_in entry.for_child) (tickets_in entry.to_child) };

    fn from(value: RuleEntry) -> Rule {
        Rule {
            first: Part {
                kind: value.parent.into(),
                for_child: value.for_child.into(),
                for_self: TicketSet::none(),
                to_child: value.to_child.into(),
            },
            second: None,
            child: value.child.into(),
            own: TicketSet::none(),
        }
    }
}

// What each link passes. Constant tables, by a rule of the project; a constant may cast an enum to its number, and call nothing.
#[rattlefmt::skip]
const FILTERS: [Entry<FilterKey>; 5] = [
    Entry { key: FilterKey { link: Owner as u8, giver: Person as u8, taker: Yard as u8, target: Person as u8 }, set: StoredSet { plain: 1 << Take as u8 | 1 << Grant as u8, copyable: 0 } },
    Entry { key: FilterKey { link: Owner as u8, giver: Person as u8, taker: Folder as u8, target: Card as u8 }, set: StoredSet { plain: 0, copyable: 1 << Read as u8 | 1 << Write as u8 } },
    Entry { key: FilterKey { link: TakeGrant as u8, giver: Person as u8, taker: Yard as u8, target: Folder as u8 }, set: StoredSet { plain: 0, copyable: 1 << Take as u8 } },
    Entry { key: FilterKey { link: TakeGrant as u8, giver: Yard as u8, taker: Person as u8, target: Folder as u8 }, set: StoredSet { plain: 1 << Take as u8, copyable: 0 } },
    Entry { key: FilterKey { link: TakeGrant as u8, giver: Folder as u8, taker: Person as u8, target: Card as u8 }, set: StoredSet { plain: 1 << Read as u8 | 1 << Write as u8, copyable: 0 } },
];

// What may be demanded.
#[rattlefmt::skip]
const DEMANDS: [Entry<DemandKey>; 1] = [
    Entry { key: DemandKey { demander: Person as u8, target: Person as u8 }, set: StoredSet { plain: 0, copyable: 1 << Take as u8 | 1 << Grant as u8 } },
];

// Who may create what, in order.
#[rattlefmt::skip]
const RULES: [RuleEntry; 3] = [
    RuleEntry { parent: Person, child: Folder, for_child: StoredSet { plain: 1 << Own as u8, copyable: 1 << Take as u8 }, to_child: NOTHING },
    RuleEntry { parent: Person, child: Yard, for_child: StoredSet { plain: 1 << Own as u8, copyable: 0 }, to_child: StoredSet { plain: 1 << Take as u8 | 1 << Grant as u8, copyable: 0 } },
    RuleEntry { parent: Person, child: Card, for_child: StoredSet { plain: 0, copyable: 1 << Read as u8 | 1 << Write as u8 }, to_child: NOTHING },
];

const NOTHING: StoredSet = StoredSet {
    plain: 0,
    copyable: 0,
};

/// The card scheme.
#[derive(Clone, Copy, Debug, PartialEq, Eq)]
pub struct CardScheme;

impl Scheme for CardScheme {
    ghost meaning = { λ _. card_scheme };

    ghost lawful = { λ _. card_well_formed };

    fn kinds(&self) -> u8 {
        KINDS
    }

    fn rights(&self) -> u8 {
        RIGHTS
    }

    fn links(&self) -> u8 {
        LINKS
    }

    fn is_subject(&self, kind: u8) -> bool {
        CardKind::try_from(kind).is_ok_and(CardKind::is_subject)
    }

    fn control(&self) -> u16 {
        1 << Take as u8 | 1 << Grant as u8 | 1 << Own as u8
    }

    fn link(&self, link: u8, sight: Sight) -> bool {
        match CardLink::try_from(link) {
            Ok(TakeGrant) => Grant.is_in(sight.xy) || Take.is_in(sight.yx),
            Ok(Owner) => Own.is_in(sight.xy) || Own.is_in(sight.yx),
            Err(_) => false,
        }
    }

    fn filter(&self, key: FilterKey) -> TicketSet {
        look_up(&FILTERS, &key)
    }

    fn demand(&self, key: DemandKey) -> TicketSet {
        look_up(&DEMANDS, &key)
    }

    fn rules(&self) -> usize {
        RULES.len()
    }

    fn rule(&self, number: usize) -> Option<Rule> {
        RULES.get(number).map(|entry| Rule::from(*entry))
    }
}
