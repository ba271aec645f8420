//! Everything that holdings have, line by line.
ghost use Rattle.std.specs.Prelude.{◌≡◌, IfOk};
ghost use Rattle.protocol.specs.declared.answer.Answer.TheVariants.{End};

use holdings::Holdings;
use model::Entity;
use protocol::Answer;
use std::io;

/// Prints the next number, the entities and the tickets. The answer is the last line.
pub fn show<R: Print, H: Holdings>(rt: &R, holdings: &mut H) -> io::Result<Answer>
    ensures same { holdings.new ≡ holdings.old }
    ensures says { IfOk result (λ a. a ≡ End) }
{
    let next = holdings.next_number();
    println!(rt; "next {next}")?;
    let count = holdings.standing();
    // By place, here and below: a question takes the holdings for writing, so that no iterator can hold them meanwhile.
    for place in 0..count {
        if let Some(entity) = holdings.entity(place) {
            let number = entity.number;
            let kind = entity.kind;
            println!(rt; "entity {number} {kind}")?;
        }
    }
    for place in 0..count {
        if let Some(holder) = holdings.entity(place) {
            show_tickets(rt, holdings, holder, count)?;
        }
    }
    Ok(Answer::End)
}

// Prints what a holder has for each of the first entities.
fn show_tickets<R: Print, H: Holdings>(
    rt: &R,
    holdings: &mut H,
    holder: Entity,
    count: usize,
) -> io::Result<()>
    ensures { holdings.new ≡ holdings.old }
{
    for place in 0..count {
        let Some(target) = holdings.entity(place) else {
            continue;
        };
        let tickets = holdings.tickets(holder.number, target.number);
        if !tickets.is_empty() {
            let from = holder.number;
            let to = target.number;
            let plain = tickets.plain();
            let copyable = tickets.copyable();
            println!(rt; "tickets {from} {to} {plain:04x} {copyable:04x}")?;
        }
    }
    Ok(())
}
