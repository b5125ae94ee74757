//! The files of a call, each read whole, and the texts of a trial in their place.
ghost use Rattle.std.specs.Prelude.{◌≡◌, IfOk, IfErr, OnOk, IsSome};
ghost use Rattle.ec_tool.specs.Asked.{file_limit, name_in, AreMade, EachBefore, OthersStay};
ghost use Rattle.ec_inputs.specs.Words.{run_in, Trial as ATrial};
ghost use Rattle.ec_outside.specs.Fault.{HasRisen};
ghost use Rattle.ec_outside.specs.Whole.{IsWhole};
ghost use Rattle.ec_tool.specs.Reading.{AreAllRead, WhenFailed, held_in};

use crate::file::FileOf;
use ec_inputs::words::RunCommand;
use ec_outside::shelf::Shelf;
use ec_outside::whole::{ReadError, read_whole};
use ec_trial::trial::trial;
use std::alloc::{AllocError, Global};

/// Files are read up to this many bytes.
const FILE_LIMIT: usize = 1_048_577;

/// What the three files hold, or the texts of a trial.
#[derive(Drop)]
pub(crate) struct Files {
    pub source: Vec<u8>,
    pub nodes: Vec<u8>,
    pub schedule: Vec<u8>,
}

/// Why the files weren't read: one of them met a fault, or there was no memory.
#[derive(Clone, Copy, PartialEq, Eq, Debug)]
pub(crate) enum Unread {
    Failed(FileOf),
    Memory,
}

/// Reads the three files of a run or a plain meaning, each whole.
pub(crate) fn read_files<F: Shelf>(
    alloc: Global,
    shelf: &mut F,
    run: RunCommand,
) -> Result<Files, Unread>
    ensures read { IfOk result (λ files. F.tells shelf.old → AreAllRead (F.content shelf.old) (run_in run.entry) (held_in files)) }
    ensures ok { OnOk result (F.faults shelf.new ≡ F.faults shelf.old) }
    ensures failed { IfErr result
        (λ e. WhenFailed e
        (λ file. HasRisen (F.faults shelf.old (name_in (run_in run.entry) file))
        (F.faults shelf.new (name_in (run_in run.entry) file)))) }
    ensures others { IfErr result (λ e. WhenFailed e (λ file.
        OthersStay (F.kept shelf.old) (F.faults shelf.old) (F.faults shelf.new) (name_in (run_in run.entry) file))) }
    ensures earlier { F.tells shelf.old → IfErr result (λ e. WhenFailed e (λ file.
        EachBefore file (λ other. IsSome (F.content shelf.old (name_in (run_in run.entry) other))))) }
{
    let source = read_file(alloc, shelf, run.source, FileOf::Source)?;
    let nodes = read_file(alloc, shelf, run.nodes, FileOf::Nodes)?;
    let schedule = read_file(alloc, shelf, run.schedule, FileOf::Schedule)?;
    Ok(Files {
        source,
        nodes,
        schedule,
    })
}

/// Reads one of the files whole.
pub(crate) fn read_file<F: Shelf>(
    alloc: Global,
    shelf: &mut F,
    name: &str,
    file: FileOf,
) -> Result<Vec<u8>, Unread>
    ensures read { IfOk result (λ bytes. F.tells shelf.old → IsWhole (F.content shelf.old name.now) file_limit bytes.items) }
    ensures there { OnOk result (F.tells shelf.old → IsSome (F.content shelf.old name.now)) }
    ensures still_tells { F.tells shelf.old → F.tells shelf.new }
    ensures content { F.content shelf.new ≡ F.content shelf.old }
    ensures kept { F.kept shelf.new ≡ F.kept shelf.old }
    ensures ok { OnOk result (F.faults shelf.new ≡ F.faults shelf.old) }
    ensures failed { IfErr result
        (λ e. WhenFailed e (λ met. (met ≡ file) × HasRisen (F.faults shelf.old name.now) (F.faults shelf.new name.now))) }
    ensures others { OthersStay (F.kept shelf.old) (F.faults shelf.old) (F.faults shelf.new) name.now }
{
    match read_whole(alloc, shelf, name, FILE_LIMIT) {
        Ok(bytes) => Ok(bytes),
        Err(ReadError::Failed) => Err(Unread::Failed(file)),
        Err(ReadError::Memory) => Err(Unread::Memory),
    }
}

/// Makes the three texts of a trial.
pub(crate) fn make_files(alloc: Global, number: u32) -> Result<Files, AllocError>
    ensures { IfOk result (λ files. AreMade (ATrial number) (held_in files)) }
{
    let made = trial(alloc, number)?;
    Ok(Files {
        source: made.source.into_vec(),
        nodes: made.nodes.into_vec(),
        schedule: made.schedule.into_vec(),
    })
}
