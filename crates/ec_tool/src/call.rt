//! A call: the files are read or made, the source is judged and run, and the text is written at the end.
ghost use Rattle.std.specs.Prelude.{◌≡◌, ℕ, List, Some, map, IfOk};
ghost use Rattle.ec_tool.specs.Asked.{AreMade};
ghost use Rattle.ec_tool.specs.Verdict.{Judged, Verdict, Came};
ghost use Rattle.ec_tool.specs.declared.file.FileOf.{FileOf as AFile};
ghost use Rattle.ec_inputs.specs.Words.{WordsOf, run_in, check_in, Check as ACheck, Trial as ATrial};
ghost use Rattle.ec_native_run.specs.Runs.{Net as ANet};
ghost use Rattle.ec_tool.specs.Reading.{WhereAsked};
ghost use Rattle.ec_tool.specs.Taking.{asked_of};

use crate::answers::{read_fault, usage};
use crate::file::FileOf;
use crate::files::{Unread, make_files, read_file, read_files};
use crate::judge::{judge, judge_source};
use crate::take::Work;
use crate::writing::write_answer;
use ec_inputs::words::{CheckCommand, Command, DEFAULT_BUDGET, RunCommand, words_of};
use ec_native_run::network::Network;
use ec_outside::shelf::Shelf;
use ec_outside::sink::Sink;
use ec_report::answer::Answer;
use ec_report::status::Status;
use std::alloc::{AllocError, Global};

/// The status and the text of a run or a plain meaning.
fn answer_on_nodes<F: Shelf>(
    alloc: Global,
    shelf: &mut F,
    work: Work,
    run: RunCommand,
    net: &mut Network,
) -> Result<Answer, AllocError>
    ensures { IfOk result (λ answer. WhereAsked (asked_of work (run_in run.entry)) (λ words.
        Verdict (F.tells shelf.old) (record {
          words = words;
          content = F.content shelf.old;
          kept = F.kept shelf.old;
          faults = F.faults shelf.old;
          faults_after = F.faults shelf.new;
          net = net.old;
          net_after = net.new;
        }) answer.status answer.text.items)) }
{
    match read_files(alloc, shelf, run) {
        Ok(files) => judge(alloc, work, run.budget, &files, net),
        Err(Unread::Failed(file)) => read_fault(alloc, file),
        Err(Unread::Memory) => Err(AllocError),
    }
}

/// The status and the text of a check, which leaves each network as it is.
fn answer_check<F: Shelf>(
    alloc: Global,
    shelf: &mut F,
    check: CheckCommand,
) -> Result<Answer, AllocError>
    ensures { IfOk result (λ answer. (net : ANet) → WhereAsked (ACheck (check_in check.entry)) (λ words.
        Verdict (F.tells shelf.old) (record {
          words = words;
          content = F.content shelf.old;
          kept = F.kept shelf.old;
          faults = F.faults shelf.old;
          faults_after = F.faults shelf.new;
          net = net;
          net_after = net;
        }) answer.status answer.text.items)) }
{
    match read_file(alloc, shelf, check.source, FileOf::Source) {
        Ok(source) => judge_source(alloc, &source),
        Err(Unread::Failed(file)) => read_fault(alloc, file),
        Err(Unread::Memory) => Err(AllocError),
    }
}

/// The status and the text of a trial, which reads no file.
fn answer_trial(alloc: Global, number: u32, net: &mut Network) -> Result<Answer, AllocError>
    ensures { IfOk result (λ answer. (held : AFile → List ℕ) × AreMade (ATrial number) held ×
        Judged (ATrial number) held net.old net.new answer.status answer.text.items) }
{
    let files = make_files(alloc, number)?;
    judge(alloc, Work::Run, DEFAULT_BUDGET, &files, net)
}

/// The status and the text of a call.
fn answer<'a, F: Shelf>(
    alloc: Global,
    words: &'a [&'a str],
    shelf: &mut F,
    net: &mut Network,
) -> Result<Answer, AllocError>
    ensures verdict { IfOk result (λ answer.
        Verdict (F.tells shelf.old) (record {
          words = map (λ word. word.now) words.now;
          content = F.content shelf.old;
          kept = F.kept shelf.old;
          faults = F.faults shelf.old;
          faults_after = F.faults shelf.new;
          net = net.old;
          net_after = net.new;
        }) answer.status answer.text.items) }
    ensures trial { (number : ℕ) → WordsOf (map (λ word. word.now) words.now) ≡ Some (ATrial number) → shelf.new ≡ shelf.old }
{
    match words_of(alloc, words)? {
        Some(Command::Run(run)) => answer_on_nodes(alloc, shelf, Work::Run, run, net),
        Some(Command::Check(check)) => answer_check(alloc, shelf, check),
        Some(Command::Mean(mean)) => answer_on_nodes(alloc, shelf, Work::Mean, mean, net),
        Some(Command::Trial(number)) => answer_trial(alloc, number, net),
        None => usage(alloc),
    }
}

/// The whole call: the files that the words name are read, or the texts of a trial are made, the source is judged and run on the nodes, or
/// its meaning is worked out, or it is only judged, and one text is written at the end. Nothing is written where there was no memory.
pub(crate) fn call<'a, F: Shelf, K: Sink>(
    alloc: Global,
    words: &'a [&'a str],
    shelf: &mut F,
    sink: &mut K,
    net: &mut Network,
) -> Status
    ensures answer { Came (F.tells shelf.old) (K.tells sink.old)
        (record {
          words = map (λ word. word.now) words.now;
          content = F.content shelf.old;
          kept = F.kept shelf.old;
          faults = F.faults shelf.old;
          faults_after = F.faults shelf.new;
          net = net.old;
          net_after = net.new;
        })
        (K.taken sink.old) (K.taken sink.new) (K.faults sink.old) (K.faults sink.new) result }
    ensures trial { (number : ℕ) → WordsOf (map (λ word. word.now) words.now) ≡ Some (ATrial number) → shelf.new ≡ shelf.old }
{
    match answer(alloc, words, shelf, net) {
        Ok(answer) => write_answer(sink, &answer),
        Err(_) => Status::NoMemory,
    }
}
