//! The words of a script: numbers, types, rights and tickets.
ghost use Rattle.std.specs.Prelude.{◌≡◌, ℕ, true, false, List, ◌++◌, MatchOption, ◌≢◌};
ghost use Rattle.protocol.specs.Numbers.{number_of};
ghost use Rattle.protocol.specs.Words.{byte_of, kind_of, right_of, flag, Says, SaysPlain};

use model::Ticket;
use scheme::{CardKind, CardRight};

/// A ticket with the number of the entity that it is for, as a script writes it.
#[derive(Clone, Copy, Debug, PartialEq, Eq)]
pub struct TicketFor {
    pub target: u32,
    pub ticket: Ticket,
}

/// The number that a word says: ASCII digits without a sign, of at most 4,294,967,295.
pub fn number(word: &str) -> Option<u32>
    ensures { result ≡ number_of word.now }
{
    if word.starts_with('+') {
        return None;
    }
    u32::from_str_radix(word, 10).ok()
}

// A number as a byte. The library numbers types and rights by bytes, and no scheme has a type or a right 255: every
// number above counts as 255, so that it is refused as it should be.
fn byte(word: &str) -> Option<u8>
    ensures { result ≡ byte_of word.now }
{
    let number = number(word)?;
    Some(number.min(255) as u8)
}

/// The type that a word says: a word of the card scheme, or a number.
// Four lines alike with `right`: one function for both would have to name what the `FromStr` of each enum gives, and be no plainer.
pub fn kind(word: &str) -> Option<u8>
    ensures { result ≡ kind_of word.now }
{
    match word.parse::<CardKind>() {
        Ok(kind) => Some(kind.into()),
        Err(_) => byte(word),
    }
}

/// The right that a word says: a letter of the card scheme, or a number.
pub fn right(word: &str) -> Option<u8>
    ensures { result ≡ right_of word.now }
{
    match word.parse::<CardRight>() {
        Ok(right) => Some(right.into()),
        Err(_) => byte(word),
    }
}

// What stands before the copy flag, and whether the flag is there: two parts of a ticket, of which neither is ever missing.
fn flagged(text: &str) -> (&str, bool)
    ensures whole { text.now ≡ result.0.now ++ flag result.1 }
    ensures cut { result.1 ≡ false → (front : List ℕ) → text.now ≢ front ++ flag true }
{
    match text.strip_suffix('c') {
        Some(front) => (front, true),
        None => (text, false),
    }
}

/// The ticket that a word says: `Y/x`, or `Y/xc` with the copy flag.
pub fn ticket(word: &str) -> Option<TicketFor>
    ensures { MatchOption result ((t : TicketFor) → Says word.now t → ⊥) (λ t. Says word.now t) }
{
    let (target, rest) = word.split_once('/')?;
    let target = number(target)?;
    let (letter, copy) = flagged(rest);
    let right = right(letter)?;
    Some(TicketFor {
        target,
        ticket: Ticket { right, copy },
    })
}

/// The ticket that a word says without the copy flag: `Y/x`.
pub fn plain_ticket(word: &str) -> Option<TicketFor>
    ensures { MatchOption result ((t : TicketFor) → SaysPlain word.now t → ⊥) (λ t. SaysPlain word.now t) }
{
    let said = ticket(word)?;
    (!said.ticket.copy).then_some(said)
}
