//! What the program's arguments ask for.
use super::example;
use super::help::help;
use super::memory::Memory;
use super::program::Program;
use super::session::Session;
use anyhow::anyhow;
use std::alloc::AllocGlobal;
use std::io::Read;
use std::process::ExitCode;
use std::rt::Runtime;
use std::{env, fs};

/// Does what the program's arguments ask for, and tells where that fails.
pub fn serve<R: Runtime + AllocGlobal, P: Program>(rt: &R, program: &P) -> ExitCode {
    match run_arguments(rt, program) {
        Ok(()) => ExitCode::SUCCESS,
        Err(error) => {
            let name = program.name();
            let _ = eprintln!(rt; "{name}: {error}");
            ExitCode::FAILURE
        }
    }
}

// Does what the program's arguments ask for. Here and below the runtime and the program stand apart: a session has the notes besides,
// which are known only once a script is at hand.
fn run_arguments<R: Runtime + AllocGlobal, P: Program>(rt: &R, program: &P) -> anyhow::Result<()> {
    let name = program.name();
    let mut words = env::args(rt)?;
    let _program = words.next();
    let first = words.next();
    let second = words.next();
    if words.next().is_some() {
        return Err(anyhow!("too many words: see {name} --help"));
    }
    match (first, second) {
        (None, _) => tell_example(rt, program),
        (Some(word), None) => match word.as_str() {
            "--help" => Ok(help(rt, program)?),
            "--notes" => Err(anyhow!("--notes wants a file, or - for the standard input")),
            file => run_file(rt, program, file, false),
        },
        (Some(word), Some(file)) => match word.as_str() {
            "--notes" => run_file(rt, program, file.as_str(), true),
            _ => Err(anyhow!("too many words: see {name} --help")),
        },
    }
}

// The example: its script, with notes, between two texts.
fn tell_example<R: Runtime + AllocGlobal, P: Program>(rt: &R, program: &P) -> anyhow::Result<()> {
    let name = program.name();
    let closing = example::CLOSING;
    rt.println(example::OPENING)?;
    run_script(rt, program, example::SCRIPT, true)?;
    println!(rt; "{closing}\n{name} --help, which has all commands and all refusals by number.")?;
    Ok(())
}

// Runs the script of a file, or of the standard input. What is no UTF-8 in it is no word of any command.
fn run_file<R: Runtime + AllocGlobal, P: Program>(
    rt: &R,
    program: &P,
    file: &str,
    notes: bool,
) -> anyhow::Result<()> {
    let heap = rt.alloc();
    let bytes = if file == "-" {
        let mut bytes = Vec::new(heap);
        rt.reader().read_to_end(&mut bytes)?;
        bytes
    } else if file.starts_with('-') {
        let name = program.name();
        return Err(anyhow!("no such option: see {name} --help"));
    } else {
        fs::read(rt, file)?
    };
    let text = String::from_utf8_lossy(heap, bytes.as_slice())?;
    run_script(rt, program, text.as_str(), notes)
}

// Runs a script in memory of its own.
fn run_script<R: Runtime + AllocGlobal, P: Program>(
    rt: &R,
    program: &P,
    text: &str,
    notes: bool,
) -> anyhow::Result<()> {
    let session = Session { rt, program, notes };
    session.run(text, Memory::new(rt.alloc(), program)?)?;
    Ok(())
}
