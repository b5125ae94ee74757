//! The program `emerald`, on the system's files and its standard output.
#![tactic(auto)]

ghost use Rattle.std.specs.Prelude.{◌≡◌, ◌⊎◌, None, map, IfOk};
ghost use Rattle.ec_inputs.specs.Words.{WordsOf};

use ec_outside::file_shelf::FileShelf;
use ec_outside::out_sink::OutSink;
use ec_tool::emerald::emerald;
use ec_tool::network::Network;
use ec_tool::status::Status;
use std::alloc::AllocError;
use std::mem::ManuallyDrop;
use std::process::ExitCode;
use std::{env, io};

fn main(rt: HostRuntime) -> ExitCode {
    let status = match call(&rt) {
        Ok(status) => status,
        Err(_) => Status::NoMemory,
    };
    ExitCode::from(status.code())
}

/// Calls the program with the words of the command line.
fn call(rt: &HostRuntime) -> Result<Status, AllocError> {
    let line = words_of_line(rt)?;
    let mut words = Vec::new(rt.alloc());
    for word in &line {
        words.push(word.as_str())?;
    }
    call_with(rt, &words)
}

/// Calls the program with these words. The network goes when the program ends.
fn call_with<'a>(rt: &HostRuntime, words: &'a [&'a str]) -> Result<Status, AllocError>
    ensures usage { IfOk result (λ status. status ≡ Status.Usage → WordsOf (map (λ word. word.now) words.now) ≡ None) }
    ensures no_command { IfOk result (λ status. WordsOf (map (λ word. word.now) words.now) ≡ None →
        (status ≡ Status.Usage) ⊎ ((status ≡ Status.WriteFault) ⊎ (status ≡ Status.NoMemory))) }
{
    let alloc = rt.alloc();
    let mut shelf = FileShelf::new(alloc, rt, words)?;
    let mut sink = OutSink::new(rt);
    let mut net = ManuallyDrop::new(Network::empty());
    Ok(emerald(alloc, words, &mut shelf, &mut sink, &mut net))
}

/// The words of the command line, the program's own name first: none, and so no command, where one of them isn't UTF-8.
fn words_of_line(rt: &HostRuntime) -> Result<Vec<String>, AllocError> {
    let mut words = Vec::new(rt.alloc());
    match env::args(rt) {
        Ok(args) => {
            for word in args {
                words.push(word)?;
            }
            Ok(words)
        }
        Err(error) if error.kind() == io::ErrorKind::OutOfMemory => Err(AllocError),
        Err(_) => Ok(words),
    }
}
