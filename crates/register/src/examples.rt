//! Worked examples, as the contract of a function that does nothing: the check asks for its proof.
ghost use Rattle.register.specs.Examples.{AllPlay};

/// Under the card scheme, every register of a table of worked examples answers its calls as the table says, and then
/// has the tickets that it says.
pub fn worked_examples()
    ensures { AllPlay }
{}
