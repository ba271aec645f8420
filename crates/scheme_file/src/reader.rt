//! The scheme that a file says.
ghost use Rattle.std.specs.Prelude.{◌≡◌, true, false, is_some};
ghost use Rattle.model.specs.Scheme.{part_of};
ghost use Rattle.scheme_records.specs.Listed.{listed, records as records_of, all_places};
ghost use Rattle.scheme_records.specs.Said.{part_said};
ghost use Rattle.scheme_file.specs.Checks.{ParentNested, fault_of};
ghost use Rattle.scheme_file.specs.Lawful.{file_scheme, file_well_formed};

use super::file::SchemeFile;
use model::{DemandKey, FilterKey, Part, Rule, Sight, TicketSet};
use scheme::Scheme;
use scheme_records::{ParentSets, Records, RuleSets};

impl<'a> SchemeFile<'a> {
    /// The scheme of a file that was checked.
    pub fn new(bytes: &'a [u8]) -> SchemeFile<'a>
        requires { is_some (fault_of bytes.now) ≡ false }
        ensures { result.bytes.now ≡ bytes.now }
    {
        SchemeFile { bytes }
    }

    // All records.
    fn records(&self) -> Records<'a>
        ensures { listed result ≡ records_of self.now.bytes.now (all_places self.now.bytes.now) }
    {
        Records::all(self.bytes)
    }
}

// A parent's part in a rule.
fn part(kind: u8, sets: ParentSets) -> Part
    requires { ParentNested sets }
    ensures { part_of result ≡ part_said kind sets }
{
    Part {
        kind,
        for_child: sets.for_child.into(),
        for_self: sets.for_self.into(),
        to_child: sets.to_child.into(),
    }
}

impl<'a> Scheme for SchemeFile<'a> {
    ghost meaning = { λ s. file_scheme s.bytes.now };

    ghost lawful = { λ s. file_well_formed s.bytes.now s.sound };

    fn kinds(&self) -> u8 {
        self.records().kinds() as u8
    }

    fn rights(&self) -> u8 {
        self.records().rights() as u8
    }

    fn links(&self) -> u8 {
        self.records().links()
    }

    fn is_subject(&self, kind: u8) -> bool {
        self.records().is_subject(kind)
    }

    fn control(&self) -> u16 {
        self.records().control()
    }

    fn link(&self, link: u8, sight: Sight) -> bool {
        self.records().link(link, sight)
    }

    fn filter(&self, key: FilterKey) -> TicketSet {
        self.records().filter(key).into()
    }

    fn demand(&self, key: DemandKey) -> TicketSet {
        self.records().demand(key).into()
    }

    fn rules(&self) -> usize {
        self.records().rules()
    }

    fn rule(&self, number: usize) -> Option<Rule> {
        let (key, sets) = self.records().rule(number)?;
        let RuleSets { first, second, own } = sets;
        Some(Rule {
            first: part(key.first, first),
            second: key.second.map(|kind| part(kind, second)),
            child: key.child,
            own: own.into(),
        })
    }
}
