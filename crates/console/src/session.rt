//! Running a script.
ghost use Rattle.std.specs.Prelude.{IfOk, IfSome};
ghost use Rattle.protocol.specs.Scripts.{ReadsOn};
ghost use Rattle.console.specs.Lines.{ChosenGoes, ComesOf};

use super::memory::Memory;
use super::phase::{Beginning, Chosen, Ending, Phase, answered};
use super::program::{Program, read};
use super::start::{ChosenScheme, Next};
use cells::CellTable;
use holdings::HoldingsMut;
use protocol::{Answer, Command, Note, Script};
use register::SetUp;
use scheme::{CardScheme, Scheme};
use scheme_file::SchemeFile;
use std::alloc::AllocGlobal;
use std::io;
use std::ops::ControlFlow::Break;
use std::rt::Files;
use ticket_list::TicketList;

/// A session of a program: where answers go, and whether a sentence follows each.
#[derive_where(Clone, Copy)]
pub struct Session<'a, R, P> {
    pub rt: &'a R,
    pub program: &'a P,
    pub notes: bool,
}

impl<R: Print + Files + AllocGlobal, P: Program> Session<'_, R, P> {
    // Prints the answer to a line, and the note.
    fn tell(&self, line: &str, command: Option<Command>, answer: Answer) -> io::Result<()> {
        println!(self.rt; "{answer}")?;
        if self.notes {
            let note = Note { command, answer };
            println!(self.rt; "    {line}\n    {note}")?;
        }
        Ok(())
    }

    // Runs a phase of a script: what the script goes on with, or none at its end.
    fn run_phase<F: Phase>(&self, script: &mut Script, phase: &mut F) -> io::Result<Option<F::Next>>
        ensures reads { IfOk result (λ next. ReadsOn script.old next script.new) }
        ensures known { IfOk result (λ next. IfSome next (ComesOf P.knows F.goes)) }
    {
        // Not `for`: the proof does not close, since after a loop over a lent script nothing is known of what is left of it.
        while let Some(line) = script.next() {
            let Some(command) = read(line, self.program) else {
                self.tell(line, None, Answer::Error)?;
                continue;
            };
            let flow = phase.answer(self.rt, command)?;
            self.tell(line, Some(command), answered(&flow))?;
            if let Break(next) = flow {
                return Ok(Some(next));
            }
        }
        Ok(None)
    }

    // Runs a set-up and the register that it becomes.
    fn run_set_up<S: Scheme + Drop, H: HoldingsMut + Drop>(
        &self,
        script: &mut Script,
        scheme: S,
        holdings: H,
    ) -> io::Result<Option<Next>>
        ensures reads { IfOk result (λ next. ReadsOn script.old next script.new) }
        ensures known { IfOk result (λ next. IfSome next (ComesOf P.knows ChosenGoes)) }
    {
        let mut set_up = SetUp::new(scheme, holdings);
        match self.run_phase(script, &mut set_up)? {
            Some(Ending::Opened) => {
                let mut register = set_up.open();
                self.run_phase(script, &mut register)
            }
            Some(Ending::Over(next)) => Ok(Some(next)),
            None => Ok(None),
        }
    }

    // Runs a set-up under the scheme that was chosen, and the register that it becomes.
    fn run_chosen<H: HoldingsMut + Drop>(
        &self,
        script: &mut Script,
        scheme: &ChosenScheme,
        holdings: H,
    ) -> io::Result<Option<Next>>
        ensures reads { IfOk result (λ next. ReadsOn script.old next script.new) }
        ensures known { IfOk result (λ next. IfSome next (ComesOf P.knows ChosenGoes)) }
    {
        match scheme {
            ChosenScheme::Card => self.run_set_up(script, CardScheme, holdings),
            ChosenScheme::File(file) => {
                let scheme = SchemeFile::new(file.bytes.as_slice());
                self.run_set_up(script, scheme, holdings)
            }
        }
    }

    /// Runs a script to its end. The memory is lent anew to each set-up.
    pub fn run(&self, text: &str, memory: Memory<P>) -> io::Result<()> {
        let Memory {
            mut entities,
            mut cells,
            mut pairs,
            program: _,
        } = memory;
        let entities = entities.as_mut_slice();
        let cells = cells.as_mut_slice();
        let pairs = pairs.as_mut_slice();
        let mut script = Script::new(text);
        let mut beginning = Beginning;
        let Some(mut scheme) = self.run_phase(&mut script, &mut beginning)? else {
            return Ok(());
        };
        let mut chosen = Chosen;
        let mut next = self.run_phase(&mut script, &mut chosen)?;
        // A step switch: the script says which part comes next. Parts that were closures would share the memory that each lends anew, and be no
        // plainer.
        while let Some(part) = next {
            next = match part {
                Next::Scheme(other) => {
                    scheme = other;
                    self.run_phase(&mut script, &mut chosen)?
                }
                Next::Cells(count) => {
                    let rows = count.rows;
                    let table = CellTable::new(&mut entities[0..rows], &mut cells[0..rows * rows]);
                    self.run_chosen(&mut script, &scheme, table)?
                }
                Next::List(size) => {
                    let list = TicketList::new(
                        &mut entities[0..size.rows],
                        &mut pairs[0..size.pairs],
                    );
                    self.run_chosen(&mut script, &scheme, list)?
                }
            };
        }
        Ok(())
    }
}
