//! What the program can be told.
use super::program::Program;
use model::Refusal;
use std::io;

const BEGINNING: &str = "\
A script has a command on each line. # starts a comment, and blank lines are passed over.
  scheme card        chooses the card scheme: ok
  cells N            begins a set-up with N rows, from 1 to 512, an entity in each: ok, or refused 17";

const LISTS: &str =
    "  list N P           the same, with places for P pairs of a holder and a target, at most 65,535: ok, or refused 17";

const COMMANDS: &str = "\
In a set-up:
  enter TYPE         enters an entity: entered NUMBER, or refused
  place A TICKET     gives entity A a ticket: ok, or refused
  open               ends the set-up and opens the register: ok
Once the register is open:
  copy A B TICKET    copies a ticket from entity A to entity B: granted link NUMBER, or refused
  demand A TICKET    gives entity A a ticket that it may have for the asking: granted, or refused
  create TYPE A [B]  creates an entity by entity A, or by entities A and B together: created NUMBER, or refused
  drop A TICKET      takes a ticket, written without the copy flag, from entity A: dropped, or refused
  retire A           takes entity A out, with all that it holds and all tickets for it: retired, or refused
  ask A TICKET       whether entity A has a ticket: yes, no, or refused
In both:
  show               everything: next, entity, tickets and end lines
Any other line, and a command where it does not belong, is answered error and changes nothing.

TYPE is person, folder, yard or card, or its number from 0 to 3. A card is an object, which holds no tickets.
TICKET is Y/x, or Y/xc with the copy flag: the number Y of an entity, and the right x, which is r (read), w (write),
t (take), g (grant) or o (own), or its number from 0 to 4.
A copy needs the ticket with its copy flag, and a link that holds from A to B and passes the ticket. Link 0 holds from A
to B if B may take from A or A may grant to B; link 1, if one of them owns the other.
show tells rights as a sum in base sixteen: 1 for right 0, 2 for right 1, 4 for right 2, and so on.

For example:
  scheme card
  cells 4
  enter person
  enter folder
  enter card
  place 1 3/rc
  place 1 2/o
  open
  copy 1 2 3/r
  ask 2 3/r
  ask 2 3/w
answers ok, ok, entered 1, entered 2, entered 3, ok, ok, ok, granted link 1, yes and no.

A refused command changes nothing. Its number says why:";

const REFUSALS: [Refusal; 14] = [
    Refusal::NotStanding,
    Refusal::NotSubject,
    Refusal::UnknownRight,
    Refusal::NotCopyable,
    Refusal::NoLink,
    Refusal::NotPassed,
    Refusal::NotDemandable,
    Refusal::NoRule,
    Refusal::RowsTaken,
    Refusal::NumbersSpent,
    Refusal::PairsTaken,
    Refusal::UnknownKind,
    Refusal::NotHeld,
    Refusal::UnfitMemory,
];

/// Prints the commands, an example, and the refusals by number.
pub fn help<R: Print, P: Program>(rt: &R, program: &P) -> io::Result<()> {
    let name = program.name();
    println!(rt; "{name}               tells an example")?;
    println!(rt;
        "{name} FILE          runs a script and prints an answer to each of its commands"
    )?;
    println!(rt; "{name} -             the same, from standard input")?;
    println!(rt; "{name} --notes FILE  the same, with a sentence below each answer")?;
    println!(rt; "{name} --help        prints this text\n")?;
    println!(rt; "{BEGINNING}")?;
    if program.knows_lists() {
        println!(rt; "{LISTS}")?;
    }
    println!(rt; "{COMMANDS}")?;
    for refusal in REFUSALS {
        let number = refusal.number();
        println!(rt; "  {number:>2}  {refusal}")?;
    }
    Ok(())
}
