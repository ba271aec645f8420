//! What a scheme is asked about: the rights that a link sees, what filters and demands go by, and creation rules.
use super::tickets::TicketSet;

/// What a link from X to Y looks at, as masks of control rights: X's for X, X's for Y, Y's for X and Y's for Y.
#[derive(Clone, Copy, Debug, PartialEq, Eq)]
pub struct Sight {
    pub xx: u16,
    pub xy: u16,
    pub yx: u16,
    pub yy: u16,
}

/// What a filter goes by: a link, and the types of the giver, the taker and the ticket's target.
#[derive(Clone, Copy, Debug, PartialEq, Eq)]
pub struct FilterKey {
    pub link: u8,
    pub giver: u8,
    pub taker: u8,
    pub target: u8,
}

/// What a demand goes by: the types of the demander and the ticket's target.
#[derive(Clone, Copy, Debug, PartialEq, Eq)]
pub struct DemandKey {
    pub demander: u8,
    pub target: u8,
}

/// One parent's part in a creation rule: its kind, and the tickets that go to the parent for the child,
/// to the parent for itself, and to the child for the parent.
#[derive(Clone, Copy, Debug, PartialEq, Eq)]
pub struct Part {
    pub kind: u8,
    pub for_child: TicketSet,
    pub for_self: TicketSet,
    pub to_child: TicketSet,
}

/// A creation rule: the parts of one or two parents, the child's kind, and the child's tickets for itself.
#[derive(Clone, Copy, Debug, PartialEq, Eq)]
pub struct Rule {
    pub first: Part,
    pub second: Option<Part>,
    pub child: u8,
    pub own: TicketSet,
}
