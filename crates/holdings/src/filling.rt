//! How many pairs are filled, counted one by one.
ghost use Rattle.std.specs.Prelude.{◌≡◌};
ghost use Rattle.model.specs.State.{count_targets, filled};

use super::Holdings;

// How many of those that stand the holder has tickets for.
fn filled_targets<H: Holdings>(holdings: &mut H, holder: u32) -> usize
    ensures same { holdings.new ≡ holdings.old }
    ensures value { result ≡ count_targets (H.Holdings.meaning holdings.old).tickets holder (H.Holdings.meaning holdings.old).entities }
{
    let mut filled = 0;
    // By place, with a `for`: after a chain nothing would be known of holdings that its closure takes for writing.
    for place in 0..holdings.standing() {
        if let Some(target) = holdings.entity(place) {
            if !holdings.tickets(holder, target.number).is_empty() {
                filled += 1;
            }
        }
    }
    filled
}

/// How many pairs of a holder and a target are filled.
pub fn filled_pairs<H: Holdings>(holdings: &mut H) -> usize
    ensures same { holdings.new ≡ holdings.old }
    ensures value { result ≡ filled (H.Holdings.meaning holdings.old) }
{
    let mut filled = 0;
    // By place, as above.
    for place in 0..holdings.standing() {
        if let Some(holder) = holdings.entity(place) {
            filled += filled_targets(holdings, holder.number);
        }
    }
    filled
}
