//! The open register.
ghost use Rattle.std.specs.Prelude.{◌≡◌};
ghost use Rattle.model.specs.Refusals.{told, bare};
ghost use Rattle.model.specs.Calls.{question_answer, answer, step, copy as copying, create as creating, demand as demanding, drop as dropping, retire as retiring};
ghost use Rattle.model.specs.Grants.{Copied, Demanded, Created};

use super::book::{Book, Opened};
use super::parents::Parents;
use super::{asking, copies, creating, gains, takes};
use holdings::HoldingsMut;
use model::{Refusal, Ticket};
use scheme::Scheme;

/// A register that has been opened. Only a set-up becomes one.
pub type Register<S, H> = Book<S, H, Opened>;

impl<S: Scheme, H: HoldingsMut> Register<S, H> {
    /// Copies a ticket for the target from the giver to the taker, and answers the lowest link that holds and passes it.
    /// The giver needs the copyable ticket, whether the plain or the copyable one is wanted. Refused where giver, taker or
    /// target does not stand, where giver or taker is no subject, where the scheme has no such right, where the giver
    /// lacks the copyable ticket, where no link holds, where none that holds passes it, and where there is no room for
    /// the pair.
    pub fn copy(
        &mut self,
        giver: u32,
        taker: u32,
        target: u32,
        ticket: Ticket,
    ) -> Result<u8, Refusal>
        ensures scheme { self.new.scheme ≡ self.old.scheme }
        ensures room { H.HoldingsMut.room self.new.holdings ≡ H.HoldingsMut.room self.old.holdings }
        ensures answer { told result ≡ answer (S.Scheme.meaning self.old.scheme) (H.HoldingsMut.room self.old.holdings) (H.Holdings.meaning self.old.holdings) (copying giver taker target ticket.right ticket.copy) }
        ensures state { H.Holdings.meaning self.new.holdings ≡ step (S.Scheme.meaning self.old.scheme) (H.HoldingsMut.room self.old.holdings) (H.Holdings.meaning self.old.holdings) (copying giver taker target ticket.right ticket.copy) }
        ensures model { Copied (S.Scheme.meaning self.old.scheme) (H.HoldingsMut.room self.old.holdings) (H.Holdings.meaning self.old.holdings) giver taker target ticket.right ticket.copy (told result) (H.Holdings.meaning self.new.holdings) }
    {
        copies::copy(
            &self.scheme,
            &mut self.holdings,
            giver,
            taker,
            target,
            ticket,
        )
    }

    /// Gives the demander a ticket for the target that the scheme lets it demand. Refused where demander or target does not
    /// stand, where the demander is no subject, where the scheme has no such right, where it does not let the ticket be
    /// demanded, and where there is no room for the pair.
    pub fn demand(&mut self, demander: u32, target: u32, ticket: Ticket) -> Result<(), Refusal>
        ensures scheme { self.new.scheme ≡ self.old.scheme }
        ensures room { H.HoldingsMut.room self.new.holdings ≡ H.HoldingsMut.room self.old.holdings }
        ensures answer { told result ≡ bare (answer (S.Scheme.meaning self.old.scheme) (H.HoldingsMut.room self.old.holdings) (H.Holdings.meaning self.old.holdings) (demanding demander target ticket.right ticket.copy)) }
        ensures state { H.Holdings.meaning self.new.holdings ≡ step (S.Scheme.meaning self.old.scheme) (H.HoldingsMut.room self.old.holdings) (H.Holdings.meaning self.old.holdings) (demanding demander target ticket.right ticket.copy) }
        ensures model { Demanded (S.Scheme.meaning self.old.scheme) (H.HoldingsMut.room self.old.holdings) (H.Holdings.meaning self.old.holdings) demander target ticket.right ticket.copy (told result) (H.Holdings.meaning self.new.holdings) }
    {
        gains::demand(&self.scheme, &mut self.holdings, demander, target, ticket)
    }

    /// Creates a child of a type by one parent, or by two in order, and answers its number. Both parents may be one subject.
    /// Refused where a parent does not stand, where one is no subject, where the scheme has no such type, where it has no
    /// rule for these parents and this type, where all rows are taken, where all numbers have been given, and where there
    /// is no room for the pairs.
    pub fn create(&mut self, parent: u32, second: Option<u32>, kind: u8) -> Result<u32, Refusal>
        ensures scheme { self.new.scheme ≡ self.old.scheme }
        ensures room { H.HoldingsMut.room self.new.holdings ≡ H.HoldingsMut.room self.old.holdings }
        ensures answer { told result ≡ answer (S.Scheme.meaning self.old.scheme) (H.HoldingsMut.room self.old.holdings) (H.Holdings.meaning self.old.holdings) (creating parent second kind) }
        ensures state { H.Holdings.meaning self.new.holdings ≡ step (S.Scheme.meaning self.old.scheme) (H.HoldingsMut.room self.old.holdings) (H.Holdings.meaning self.old.holdings) (creating parent second kind) }
        ensures model { Created (S.Scheme.meaning self.old.scheme) (H.HoldingsMut.room self.old.holdings) (H.Holdings.meaning self.old.holdings) parent second kind (told result) (H.Holdings.meaning self.new.holdings) }
    {
        let parents = Parents {
            first: parent,
            second,
        };
        creating::create(&self.scheme, &mut self.holdings, parents, kind)
    }

    /// Takes a right for the target from the holder, plain and copyable. Refused where holder or target does not stand,
    /// where the holder is no subject, where the scheme has no such right, and where the ticket is not held.
    pub fn drop_ticket(&mut self, holder: u32, target: u32, right: u8) -> Result<(), Refusal>
        ensures scheme { self.new.scheme ≡ self.old.scheme }
        ensures room { H.HoldingsMut.room self.new.holdings ≡ H.HoldingsMut.room self.old.holdings }
        ensures answer { told result ≡ bare (answer (S.Scheme.meaning self.old.scheme) (H.HoldingsMut.room self.old.holdings) (H.Holdings.meaning self.old.holdings) (dropping holder target right)) }
        ensures state { H.Holdings.meaning self.new.holdings ≡ step (S.Scheme.meaning self.old.scheme) (H.HoldingsMut.room self.old.holdings) (H.Holdings.meaning self.old.holdings) (dropping holder target right) }
    {
        takes::drop_ticket(&self.scheme, &mut self.holdings, holder, target, right)
    }

    /// Retires an entity: it goes, with all that it holds and all tickets for it. Its number is never given again. Refused
    /// where it does not stand.
    pub fn retire(&mut self, entity: u32) -> Result<(), Refusal>
        ensures scheme { self.new.scheme ≡ self.old.scheme }
        ensures room { H.HoldingsMut.room self.new.holdings ≡ H.HoldingsMut.room self.old.holdings }
        ensures answer { told result ≡ bare (answer (S.Scheme.meaning self.old.scheme) (H.HoldingsMut.room self.old.holdings) (H.Holdings.meaning self.old.holdings) (retiring entity)) }
        ensures state { H.Holdings.meaning self.new.holdings ≡ step (S.Scheme.meaning self.old.scheme) (H.HoldingsMut.room self.old.holdings) (H.Holdings.meaning self.old.holdings) (retiring entity) }
    {
        takes::retire(&mut self.holdings, entity)
    }

    /// Whether the holder has the ticket for the target. Refused where holder or target does not stand, where the
    /// holder is no subject, and where the scheme has no such right.
    pub fn question(&mut self, holder: u32, target: u32, ticket: Ticket) -> Result<bool, Refusal>
        ensures same { self.new ≡ self.old }
        ensures answer { told result ≡ question_answer (S.Scheme.meaning self.old.scheme) (H.Holdings.meaning self.old.holdings) holder target ticket.right ticket.copy }
    {
        asking::question(&self.scheme, &mut self.holdings, holder, target, ticket)
    }
}
