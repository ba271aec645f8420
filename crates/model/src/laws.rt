//! Laws of the model, each the contract of a small function that does nothing: the check asks for its proof.
ghost use Rattle.model.specs.Determinacy.{CompleteOrExceeds, CreationsEnd, ExceedsAsMade, OneOutlook, OneSpread};
ghost use Rattle.model.specs.Forecast.{DrawingsCover, OutlooksForecast, OutlooksReach};
ghost use Rattle.model.specs.Grants.{CopiesExactly, DemandsExactly, CreatesExactly, CopiesByLowest, GrantsAdd};
ghost use Rattle.model.specs.Laws.{AlwaysSound, StaysSound, StaysWithin};
ghost use Rattle.model.specs.Lives.{NumbersOnce};
ghost use Rattle.model.specs.Spread.{ClosuresDerive, ClosuresLeast, ClosuresSound};

/// Every call and every entry of a set-up, granted or refused, leaves a sound register sound and keeps to its room. So
/// every register is sound and within its room, from new, empty holdings on.
pub fn stays_sound()
    ensures kept { StaysSound }
    ensures within { StaysWithin }
    ensures always { AlwaysSound }
{}

/// From new, empty holdings on, after any entries and any calls: a ticket is held for or by an entity only between its
/// entry or creation and its retiring, and no number is given twice.
pub fn numbers_once()
    ensures { NumbersOnce }
{}

/// A copy, a demand and a creation are granted exactly when the model authorises them and there is room. A copy answers
/// the lowest link that holds and passes, and each adds what the model says and nothing else.
pub fn granted_exactly()
    ensures copies { CopiesExactly }
    ensures demands { DemandsExactly }
    ensures creates { CreatesExactly }
    ensures lowest { CopiesByLowest }
    ensures adds { GrantsAdd }
{}

/// What authorised copies and demands reach, and no further one enlarges, is the least such table, and holds exactly the
/// tickets that can be derived. A sound register is sound with it.
pub fn closes_least()
    ensures least { ClosuresLeast }
    ensures derives { ClosuresDerive }
    ensures sound { ClosuresSound }
{}

/// If a drawing of creations is complete and a table is the closure of its state, then over any list of calls, in any
/// room, every ticket held is in that table for the stand-ins of holder and target.
pub fn covers_every_run()
    ensures { DrawingsCover }
{}

/// One list of calls brings about all that an outlook shows, on every ample twin of the register. Between entities of the
/// register no list of calls brings about anything else.
pub fn reaches_all_shown()
    ensures reached { OutlooksReach }
    ensures forecast { OutlooksForecast }
{}

/// Within a limit the creations are complete or they pass it, never both, and they pass it exactly when their number does;
/// where there is no circle of creation they end. A spread has at most one answer, and so has an outlook.
pub fn one_answer()
    ensures decided { CompleteOrExceeds }
    ensures made { ExceedsAsMade }
    ensures end { CreationsEnd }
    ensures spread { OneSpread }
    ensures outlook { OneOutlook }
{}
