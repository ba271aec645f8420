//! The set-up: entities are entered and tickets placed by hand, until it is opened.
ghost use Rattle.std.specs.Prelude.{◌≡◌, true};
ghost use Rattle.model.specs.Refusals.{told, bare};
ghost use Rattle.model.specs.State.{new};
ghost use Rattle.model.specs.SetUp.{enter as entering, place as placing, entry_answer, entry_step};

use super::asking::check_parties;
use super::book::{Begun, Book};
use super::gains::gain;
use super::open::Register;
use holdings::{Holdings, HoldingsMut};
use model::{Refusal, Ticket};
use scheme::Scheme;
use std::marker::PhantomData;

/// A register that is being set up.
pub type SetUp<S, H> = Book<S, H, Begun>;

impl<S: Scheme, H: HoldingsMut> SetUp<S, H> {
    /// Begins a set-up. The holdings are emptied, whatever they held.
    pub fn new(scheme: S, holdings: H) -> SetUp<S, H>
        ensures scheme { result.scheme ≡ scheme }
        ensures room { H.HoldingsMut.room result.holdings ≡ H.HoldingsMut.room holdings }
        ensures state { H.Holdings.meaning result.holdings ≡ new }
    {
        let mut holdings = holdings;
        // What has just been made is new: to clear it again would go through all its memory a second time.
        if !are_new(&mut holdings) {
            holdings.clear();
        }
        Book {
            scheme,
            holdings,
            phase: PhantomData,
        }
    }

    /// Enters an entity, and answers its number. Refused where the scheme has no such type, where all rows are taken,
    /// and where all numbers have been given.
    pub fn enter(&mut self, kind: u8) -> Result<u32, Refusal>
        ensures scheme { self.new.scheme ≡ self.old.scheme }
        ensures room { H.HoldingsMut.room self.new.holdings ≡ H.HoldingsMut.room self.old.holdings }
        ensures answer { told result ≡ entry_answer (S.Scheme.meaning self.old.scheme) (H.HoldingsMut.room self.old.holdings) (H.Holdings.meaning self.old.holdings) (entering kind) }
        ensures state { H.Holdings.meaning self.new.holdings ≡ entry_step (S.Scheme.meaning self.old.scheme) (H.HoldingsMut.room self.old.holdings) (H.Holdings.meaning self.old.holdings) (entering kind) }
    {
        if kind >= self.scheme.kinds() {
            return Err(Refusal::UnknownKind);
        }
        self.holdings.add(kind)
    }

    /// Gives the holder a ticket for the target, beside what it holds. Refused where holder or target does not stand,
    /// where the holder is no subject, where the scheme has no such right, and where there is no room for the pair.
    pub fn place(&mut self, holder: u32, target: u32, ticket: Ticket) -> Result<(), Refusal>
        ensures scheme { self.new.scheme ≡ self.old.scheme }
        ensures room { H.HoldingsMut.room self.new.holdings ≡ H.HoldingsMut.room self.old.holdings }
        ensures answer { told result ≡ bare (entry_answer (S.Scheme.meaning self.old.scheme) (H.HoldingsMut.room self.old.holdings) (H.Holdings.meaning self.old.holdings) (placing holder target ticket.right ticket.copy)) }
        ensures state { H.Holdings.meaning self.new.holdings ≡ entry_step (S.Scheme.meaning self.old.scheme) (H.HoldingsMut.room self.old.holdings) (H.Holdings.meaning self.old.holdings) (placing holder target ticket.right ticket.copy) }
    {
        check_parties(
            &self.scheme,
            &mut self.holdings,
            holder,
            target,
            ticket.right,
        )?;
        gain(&mut self.holdings, holder, target, ticket)
    }

    /// Ends the set-up for good. The register has everything as it was.
    pub fn open(self) -> Register<S, H>
        ensures scheme { result.scheme ≡ self.scheme }
        ensures holdings { result.holdings ≡ self.holdings }
    {
        let Book {
            scheme,
            holdings,
            phase: _,
        } = self;
        Book {
            scheme,
            holdings,
            phase: PhantomData,
        }
    }
}

// Whether nobody stands and no number has been given: then nobody holds a ticket.
fn are_new<H: Holdings>(holdings: &mut H) -> bool
    ensures same { holdings.new ≡ holdings.old }
    ensures new { result ≡ true → H.Holdings.meaning holdings.old ≡ new }
{
    holdings.standing() == 0 && holdings.next_number() == 1
}
