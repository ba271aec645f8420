//! What a scheme is asked.
ghost use Rattle.std.specs.Prelude.{◌≡◌, length};
ghost use Rattle.model.specs.Tickets.{tickets_of};
ghost use Rattle.model.specs.Scheme.{Scheme as Meaning, WellFormed, rule_of};
ghost use Rattle.std.specs.Option.{option_map};
ghost use Rattle.std.specs.List.{slice_get};

use model::{DemandKey, FilterKey, Rule, Sight, TicketSet};

/// A protection scheme. Each question has one answer for every number, declared or not, and a repeated question is
/// answered alike: the answer is the meaning's.
pub trait Scheme {
    /// What the scheme means.
    ghost meaning: { Self → Meaning };

    /// Its law: the meaning is well formed.
    ghost lawful: { (x : Self) → WellFormed (meaning x) };

    /// How many types there are, numbered from 0.
    fn kinds(&self) -> u8
        ensures { result ≡ (meaning self.now).kinds };

    /// How many rights there are, numbered from 0.
    fn rights(&self) -> u8
        ensures { result ≡ (meaning self.now).rights };

    /// How many links there are, numbered from 0.
    fn links(&self) -> u8
        ensures { result ≡ (meaning self.now).links };

    /// Whether the entities of a type are subjects, which hold tickets.
    fn is_subject(&self, kind: u8) -> bool
        ensures { result ≡ (meaning self.now).subject kind };

    /// The mask of the control rights, which links look at; the others are inert.
    fn control(&self) -> u16
        ensures { result ≡ (meaning self.now).control };

    /// Whether a link holds from X to Y where these control rights are seen.
    fn link(&self, link: u8, sight: Sight) -> bool
        ensures { result ≡ (meaning self.now).link link sight };

    /// The filter: which tickets for an entity of the target's type a link passes from the giver's type to the taker's.
    fn filter(&self, key: FilterKey) -> TicketSet
        ensures { tickets_of result ≡ (meaning self.now).filter key.link key.giver key.taker key.target };

    /// The demand function: which tickets for an entity of the target's type the demander's type may demand.
    fn demand(&self, key: DemandKey) -> TicketSet
        ensures { tickets_of result ≡ (meaning self.now).demand key.demander key.target };

    /// How many creation rules there are, numbered from 0.
    fn rules(&self) -> usize
        ensures { result ≡ length (meaning self.now).rules };

    /// The creation rule with a number, counted from 0, or none past the last.
    fn rule(&self, number: usize) -> Option<Rule>
        ensures { option_map rule_of result ≡ slice_get (meaning self.now).rules number };
}
