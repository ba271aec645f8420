//! What records answer: the scheme that they say, and what the check of a file asks about the records before one.
ghost use Rattle.std.specs.Prelude.{◌≡◌, length};
ghost use Rattle.std.specs.List.{slice_get, list_any as any, count_by as count};
ghost use Rattle.std.specs.Option.{option_map};
ghost use Rattle.scheme_records.specs.Listed.{listed};
ghost use Rattle.scheme_records.specs.Said.{said, set_said, set_found, control_right, creation_said, tag_above, tagged, tag_number, of_link, repeats};

use super::masks::are_within;
use super::record::{NOTHING, Record, RuleKey, RuleSets, Tag};
use super::records::Records;
use model::{DemandKey, FilterKey, Sight, StoredSet};

impl Records<'_> {
    // How many records have a tag.
    fn count(self, tag: Tag) -> usize
        ensures { result ≡ count (tagged (tag_number tag)) (listed self.entry) }
    {
        self.iter().filter(|found| found.tag() == tag).count()
    }

    /// How many types are declared.
    pub fn kinds(self) -> usize
        ensures { result ≡ (said (listed self.entry)).kinds }
    {
        self.count(Tag::Kind)
    }

    /// How many rights are declared.
    pub fn rights(self) -> usize
        ensures { result ≡ (said (listed self.entry)).rights }
    {
        self.count(Tag::Right)
    }

    /// How many links there are: one above the highest that has an alternative.
    #[tactic(auto, unfolding(crate::specs::Said::links_of))]
    pub fn links(self) -> u8
        ensures { result ≡ (said (listed self.entry)).links }
    {
        let mut links = 0;
        // A `for`: a chain from the last number on was tried, and its proof did not close.
        for link in 0u8..8 {
            if self.declares_link(link) {
                links = link + 1;
            }
        }
        links
    }

    /// Whether a link has an alternative.
    pub fn declares_link(self, link: u8) -> bool
        ensures { result ≡ any (of_link link) (listed self.entry) }
    {
        self.iter().any(
            |found| matches!(found, Record::Alternative { link: other, .. } if other == link),
        )
    }

    /// Whether a type is declared as a subject.
    pub fn is_subject(self, kind: u8) -> bool
        ensures { result ≡ (said (listed self.entry)).subject kind }
    {
        self.iter().any(
            |found| matches!(found, Record::Kind { number, subject } if number == kind && subject),
        )
    }

    // Whether a right is declared as a control right.
    fn is_control(self, right: u8) -> bool
        ensures { result ≡ any (control_right right) (listed self.entry) }
    {
        self.iter().any(
            |found| matches!(found, Record::Right { number, control } if number == right && control),
        )
    }

    /// The mask of the control rights.
    #[tactic(auto, unfolding(crate::specs::Said::control_of))]
    pub fn control(self) -> u16
        ensures { result ≡ (said (listed self.entry)).control }
    {
        let mut mask = 0u16;
        // A `for`: a fold over the rights that pass was tried, and its proof did not close.
        for right in 0u8..16 {
            if self.is_control(right) {
                mask |= 1 << right;
            }
        }
        mask
    }

    /// Whether some alternative of a link is present.
    pub fn link(self, link: u8, sight: Sight) -> bool
        ensures { result ≡ (said (listed self.entry)).link link sight }
    {
        self.iter().any(|found| matches!(
            found,
            Record::Alternative { link: other, needs } if other == link && are_within(needs, sight)
        ))
    }

    /// The filter's ticket set.
    pub fn filter(self, key: FilterKey) -> StoredSet
        ensures { set_said result ≡ (said (listed self.entry)).filter key.link key.giver key.taker key.target }
    {
        set_found(self.iter().find(|found| found.is_filter_for(key)))
    }

    /// The demand's ticket set.
    pub fn demand(self, key: DemandKey) -> StoredSet
        ensures { set_said result ≡ (said (listed self.entry)).demand key.demander key.target }
    {
        set_found(self.iter().find(|found| found.is_demand_for(key)))
    }

    /// How many creation rules there are.
    pub fn rules(self) -> usize
        ensures { result ≡ length (said (listed self.entry)).rules }
    {
        self.count(Tag::Rule)
    }

    /// The key and the sets of the rule with a number, counted from 0.
    pub fn rule(self, number: usize) -> Option<(RuleKey, RuleSets)>
        ensures { option_map creation_said result ≡ slice_get (said (listed self.entry)).rules number }
    {
        self.iter()
            .filter_map(|found| match found {
                Record::Rule { key, sets } => Some((key, sets)),
                _ => None,
            })
            .nth(number)
    }

    /// Whether some record has a tag with a higher number.
    // A number, and no `Tag`: the narrower type would ask more of callers.
    pub fn has_tag_above(self, tag: u8) -> bool
        ensures { result ≡ any (tag_above tag) (listed self.entry) }
    {
        self.iter().any(|found| found.tag() as u8 > tag)
    }

    /// Whether some record has the key of this one.
    pub fn has_key_of(self, found: &Record) -> bool
        ensures { result ≡ repeats (listed self.entry) found.now }
    {
        match *found {
            Record::Filter { key, .. } => self.iter().any(|found| found.is_filter_for(key)),
            Record::Demand { key, .. } => self.iter().any(|found| found.is_demand_for(key)),
            Record::Rule { key, .. } => self.iter().any(|found| found.is_rule_for(key)),
            _ => false,
        }
    }
}

// The ticket set of a filter or demand that was found, and the empty set where none was.
fn set_found(found: Option<Record>) -> StoredSet
    ensures { set_said result ≡ set_found found }
{
    found.map_or(NOTHING, |found| found.set())
}
