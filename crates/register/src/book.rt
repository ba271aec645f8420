//! The one form of a register that is being set up, and of one that has been opened.
ghost use Rattle.std.proofs.Props.{props};
ghost use Rattle.model.specs.Laws.{Sound};
ghost use Rattle.holdings.specs.Filing.{Rising-prop};

use holdings::{Holdings, HoldingsMut};
use model::{Entity, TicketSet};
use scheme::Scheme;
use std::marker::PhantomData;

/// That a register is being set up.
#[derive(Clone, Copy, Debug, PartialEq, Eq)]
pub struct Begun;

/// That a register has been opened.
#[derive(Clone, Copy, Debug, PartialEq, Eq)]
pub struct Opened;

/// A scheme, holdings that are sound under it, and whether they are being set up or have been opened.
#[derive(Drop)]
pub struct Book<S: Scheme, H: HoldingsMut, P> {
    pub(crate) scheme: S,
    pub(crate) holdings: H,
    pub(crate) phase: PhantomData<P>,
    ghost sound: { Sound (S.Scheme.meaning scheme) (H.Holdings.meaning holdings) } by { Prim.hlevel (props, Rising-prop) },
}

/// A set-up and a register can be read as their holdings can: tickets can be listed, and a spread or an outlook drawn.
impl<S: Scheme, H: HoldingsMut, P> Holdings for Book<S, H, P> {
    ghost meaning = { λ s. H.Holdings.meaning s.holdings };

    ghost orderly = { λ s. H.Holdings.orderly s.holdings };

    fn next_number(&mut self) -> u32 {
        self.holdings.next_number()
    }

    fn standing(&mut self) -> usize {
        self.holdings.standing()
    }

    fn entity(&mut self, place: usize) -> Option<Entity> {
        self.holdings.entity(place)
    }

    fn find(&mut self, number: u32) -> Option<u8> {
        self.holdings.find(number)
    }

    fn tickets(&mut self, holder: u32, target: u32) -> TicketSet {
        self.holdings.tickets(holder, target)
    }
}
