//! A record of 32 bytes, taken apart.
ghost use Rattle.std.specs.Prelude.{◌≡◌, ◌+◌, ◌<◌, length};
ghost use Rattle.scheme_records.specs.Decoded.{decoded, stored_at, sight_at, parent_sets_at, sets_at, second_in};
ghost use Rattle.scheme_records.specs.Said.{parent_sets, all_sets, child_sets, tag_number, tag_of, filter_for, demand_for, rule_for, set_said, set_of};

use super::block::word_at;
use model::{DemandKey, FilterKey, Sight, StoredSet};

// No ticket.
pub(crate) const NOTHING: StoredSet = StoredSet {
    plain: 0,
    copyable: 0,
};

/// What a rule goes by: the types of its parents, in order, and of the child.
#[derive(Clone, Copy, Debug, PartialEq, Eq)]
pub struct RuleKey {
    pub first: u8,
    pub second: Option<u8>,
    pub child: u8,
}

/// The ticket sets of one parent in a rule: those that go to the parent for the child (C) and for itself (S), and to the
/// child for the parent (G).
#[derive(Clone, Copy, Debug, PartialEq, Eq)]
pub struct ParentSets {
    pub for_child: StoredSet,
    pub for_self: StoredSet,
    pub to_child: StoredSet,
}

/// The seven ticket sets of a rule: those of each parent, and the child's for itself (H).
#[derive(Clone, Copy, Debug, PartialEq, Eq)]
pub struct RuleSets {
    pub first: ParentSets,
    pub second: ParentSets,
    pub own: StoredSet,
}

impl ParentSets {
    /// All three.
    pub fn to_array(self) -> [StoredSet; 3]
        ensures { result ≡ parent_sets self }
    {
        [self.for_child, self.for_self, self.to_child]
    }
}

impl RuleSets {
    /// All seven, as they stand in a record.
    pub fn to_array(self) -> [StoredSet; 7]
        ensures { result ≡ all_sets self }
    {
        [
            self.first.for_child,
            self.second.for_child,
            self.first.for_self,
            self.second.for_self,
            self.own,
            self.first.to_child,
            self.second.to_child,
        ]
    }

    /// Those that go to the child: for itself, and for each parent.
    pub fn of_child(self) -> [StoredSet; 3]
        ensures { result ≡ child_sets self }
    {
        [self.own, self.first.to_child, self.second.to_child]
    }
}

/// What a record says.
#[derive(Clone, Copy, Debug, PartialEq, Eq)]
pub enum Record {
    /// A type, and whether its entities are subjects.
    Kind { number: u8, subject: bool },
    /// A right, and whether it is a control right.
    Right { number: u8, control: bool },
    /// A link holds where all these control rights are present.
    Alternative { link: u8, needs: Sight },
    /// What a link passes from a giver's type to a taker's for a target's type.
    Filter { key: FilterKey, set: StoredSet },
    /// What a type may demand for a target's type.
    Demand { key: DemandKey, set: StoredSet },
    /// How one parent or two create a child.
    Rule { key: RuleKey, sets: RuleSets },
}

/// What tells records apart, in the order in which they stand in a file.
#[derive(Clone, Copy, Debug, PartialEq, Eq, PartialOrd, Ord)]
pub enum Tag {
    Kind = 1,
    Right = 2,
    Alternative = 3,
    Filter = 4,
    Demand = 5,
    Rule = 6,
}

impl Record {
    /// The record's tag.
    pub fn tag(&self) -> Tag
        ensures { tag_number result ≡ tag_of self.now }
    {
        match self {
            Record::Kind { .. } => Tag::Kind,
            Record::Right { .. } => Tag::Right,
            Record::Alternative { .. } => Tag::Alternative,
            Record::Filter { .. } => Tag::Filter,
            Record::Demand { .. } => Tag::Demand,
            Record::Rule { .. } => Tag::Rule,
        }
    }

    // Whether it is the filter's for this key. One function for each type of key: an enum of keys would be made for them alone.
    pub(crate) fn is_filter_for(&self, key: FilterKey) -> bool
        ensures { result ≡ filter_for key.link key.giver key.taker key.target self.now }
    {
        matches!(*self, Record::Filter { key: other, .. } if other == key)
    }

    // Whether it is the demand for this key.
    pub(crate) fn is_demand_for(&self, key: DemandKey) -> bool
        ensures { result ≡ demand_for key.demander key.target self.now }
    {
        matches!(*self, Record::Demand { key: other, .. } if other == key)
    }

    // Whether it is the rule for this key.
    pub(crate) fn is_rule_for(&self, key: RuleKey) -> bool
        ensures { result ≡ rule_for key.first key.second key.child self.now }
    {
        matches!(*self, Record::Rule { key: other, .. } if other == key)
    }

    // The ticket set of a filter or demand, and else the empty set.
    pub(crate) fn set(&self) -> StoredSet
        ensures { set_said result ≡ set_of self.now }
    {
        match *self {
            Record::Filter { set, .. } | Record::Demand { set, .. } => set,
            _ => NOTHING,
        }
    }
}

// Masks by their place in what the slice pattern leaves: the pattern takes the head of a record apart, and no head has 28 bytes.

// The ticket set from a byte on: the plain mask, then the copyable one.
fn stored_at(bytes: &[u8], at: usize) -> StoredSet
    requires { at + 3 < length bytes.now }
    ensures { result ≡ stored_at bytes.now at }
{
    StoredSet {
        plain: word_at(bytes, at),
        copyable: word_at(bytes, at + 2),
    }
}

// The four masks of a link alternative.
fn sight_at(bytes: &[u8], at: usize) -> Sight
    requires { at + 7 < length bytes.now }
    ensures { result ≡ sight_at bytes.now at }
{
    Sight {
        xx: word_at(bytes, at),
        xy: word_at(bytes, at + 2),
        yx: word_at(bytes, at + 4),
        yy: word_at(bytes, at + 6),
    }
}

// One parent's ticket sets: each stands beside that of the other parent, and H between S and G.
fn parent_sets_at(bytes: &[u8], at: usize) -> ParentSets
    requires { at + 23 < length bytes.now }
    ensures { result ≡ parent_sets_at bytes.now at }
{
    ParentSets {
        for_child: stored_at(bytes, at),
        for_self: stored_at(bytes, at + 8),
        to_child: stored_at(bytes, at + 20),
    }
}

// The seven ticket sets of a rule.
fn sets_at(bytes: &[u8], at: usize) -> RuleSets
    requires { at + 27 < length bytes.now }
    ensures { result ≡ sets_at bytes.now at }
{
    RuleSets {
        first: parent_sets_at(bytes, at),
        second: parent_sets_at(bytes, at + 4),
        own: stored_at(bytes, at + 16),
    }
}

// A rule's second parent: 255 stands for none.
fn second_in(byte: u8) -> Option<u8>
    ensures { result ≡ second_in byte }
{
    (byte != 255).then_some(byte)
}

/// What the bytes of a record say, by its tag, or none where the tag is unknown.
#[tactic(auto, unfolding(crate::specs::Decoded::decoded))]
pub fn decode(bytes: &[u8]) -> Option<Record>
    requires { length bytes.now ≡ 32 }
    ensures { result ≡ decoded bytes.now }
{
    // Taken apart by one slice pattern for each tag, by a rule of the project.
    match bytes {
        [1, number, subject, ..] => Some(Record::Kind {
            number: *number,
            subject: *subject == 1,
        }),
        [2, number, control, ..] => Some(Record::Right {
            number: *number,
            control: *control == 1,
        }),
        [3, link, _, _, rest @ ..] => Some(Record::Alternative {
            link: *link,
            needs: sight_at(rest, 0),
        }),
        [4, link, giver, taker, target, _, _, _, rest @ ..] => Some(Record::Filter {
            key: FilterKey {
                link: *link,
                giver: *giver,
                taker: *taker,
                target: *target,
            },
            set: stored_at(rest, 0),
        }),
        [5, _, demander, _, target, _, _, _, rest @ ..] => Some(Record::Demand {
            key: DemandKey {
                demander: *demander,
                target: *target,
            },
            set: stored_at(rest, 0),
        }),
        [6, first, second, child, rest @ ..] => Some(Record::Rule {
            key: RuleKey {
                first: *first,
                second: second_in(*second),
                child: *child,
            },
            sets: sets_at(rest, 0),
        }),
        _ => None,
    }
}
