//! The call of the program: the files are read or made, the source is judged and run, and the text is written at the end.
ghost use Rattle.std.specs.Prelude.{◌≡◌, ◌⊎◌, ℕ, List, ◌++◌, Some, None, map};
ghost use Rattle.ec_tool.specs.Asked.{HasRead};
ghost use Rattle.ec_tool.specs.Lines.{usage_line};
ghost use Rattle.ec_tool.specs.Promises.{EndsWith, HasReadFault, IsNoSource, IsNoInput, CommandEnded, HasAccepted, IsRun, IsAccepted};
ghost use Rattle.ec_tool.specs.Promises.{HasRun, IsAcceptedCall, NoneRisen};
ghost use Rattle.ec_tool.specs.Verdict.{Came};
ghost use Rattle.ec_inputs.specs.Words.{WordsOf, Trial as ATrial};
ghost use Rattle.ec_outside.specs.Fault.{HasRisen};

use crate::call::call;
use ec_native_run::network::Network;
use ec_outside::shelf::Shelf;
use ec_outside::sink::Sink;
use ec_report::status::Status;
use std::alloc::Global;

/// The program: reads the files that the words name or makes those of a trial, runs the source that it has so on the nodes or only judges
/// it, and writes one text at the end. Every accepted source is run, by the machine code of 1 to 64 nodes of either kind; what a run leaves
/// of its network stays in `net`. Nothing is written where there was no memory.
pub fn emerald<'a, F: Shelf, K: Sink>(
    alloc: Global,
    words: &'a [&'a str],
    shelf: &mut F,
    sink: &mut K,
    net: &mut Network,
) -> Status
    // The status and the text, by the table of answers.
    ensures answer { Came (F.tells shelf.old) (K.tells sink.old)
        (record {
          words = map (λ word. word.now) words.now;
          content = F.content shelf.old;
          kept = F.kept shelf.old;
          faults = F.faults shelf.old;
          faults_after = F.faults shelf.new;
          net = net.old;
          net_after = net.new;
        })
        (K.taken sink.old) (K.taken sink.new) (K.faults sink.old) (K.faults sink.new) result }

    // The headline: for every source that a check accepts, set of nodes and schedule the bytes written are the report of the source's
    // meaning on them, with its output, failures and placements, while all code between stops is its node's own machine code, run without a
    // trap; the run ends early only where the budget is spent, a node is full, or want of memory is answered. So it is where the shelf and
    // the sink tell what they hold and meet no fault.
    ensures headline { (given : IsAcceptedCall (F.tells shelf.old) (K.tells sink.old) (map (λ word. word.now) words.now)
        (F.content shelf.old) (F.faults shelf.old) (F.faults shelf.new) (K.faults sink.old) (K.faults sink.new)) →
        HasRun given.accepted.asked given.accepted.held net.old net.new (K.taken sink.old) (K.taken sink.new) result ⊎
        (result ≡ Status.NoMemory) }

    // Each status by itself: its cause, and the text that is written.
    ensures usage { result ≡ Status.Usage → (WordsOf (map (λ word. word.now) words.now) ≡ None) ×
        (K.tells sink.old → K.taken sink.new ≡ K.taken sink.old ++ usage_line) }
    ensures no_command { WordsOf (map (λ word. word.now) words.now) ≡ None →
        (result ≡ Status.Usage) ⊎ ((result ≡ Status.WriteFault) ⊎ (result ≡ Status.NoMemory)) }
    ensures read_fault { result ≡ Status.ReadFault →
        (text : List ℕ) × HasReadFault (F.tells shelf.old) (map (λ word. word.now) words.now) (F.content shelf.old)
        (F.kept shelf.old) (F.faults shelf.old) (F.faults shelf.new) text ×
        (K.tells sink.old → K.taken sink.new ≡ K.taken sink.old ++ text) }
    ensures source_refused { result ≡ Status.SourceRefused →
        (text : List ℕ) × (read : HasRead (F.tells shelf.old) (map (λ word. word.now) words.now) (F.content shelf.old)) ×
        IsNoSource read.held text × (net.new ≡ net.old) ×
        (K.tells sink.old → K.taken sink.new ≡ K.taken sink.old ++ text) }
    ensures input_refused { result ≡ Status.InputRefused →
        (text : List ℕ) × (read : HasRead (F.tells shelf.old) (map (λ word. word.now) words.now) (F.content shelf.old)) ×
        IsNoInput read.asked read.held text × (net.new ≡ net.old) ×
        (K.tells sink.old → K.taken sink.new ≡ K.taken sink.old ++ text) }
    ensures write_fault { result ≡ Status.WriteFault → HasRisen (K.faults sink.old) (K.faults sink.new) }
    ensures no_memory { result ≡ Status.NoMemory →
        (K.taken sink.new ≡ K.taken sink.old) × (K.faults sink.new ≡ K.faults sink.old) }

    // A run, a plain meaning or a trial without a failure ends so, and an accepted check does.
    ensures finished { result ≡ Status.Finished →
        (text : List ℕ) × (read : HasRead (F.tells shelf.old) (map (λ word. word.now) words.now) (F.content shelf.old)) ×
        (CommandEnded read.asked read.held net.old net.new Status.Finished text ⊎ HasAccepted read.asked read.held net.old net.new text) ×
        (K.tells sink.old → K.taken sink.new ≡ K.taken sink.old ++ text) }

    // Only runs, plain meanings and trials end so, and with a full node no plain meaning.
    ensures some_failed { result ≡ Status.SomeFailed →
        (text : List ℕ) × (read : HasRead (F.tells shelf.old) (map (λ word. word.now) words.now) (F.content shelf.old)) ×
        CommandEnded read.asked read.held net.old net.new Status.SomeFailed text ×
        (K.tells sink.old → K.taken sink.new ≡ K.taken sink.old ++ text) }
    ensures spent { result ≡ Status.Spent →
        (text : List ℕ) × (read : HasRead (F.tells shelf.old) (map (λ word. word.now) words.now) (F.content shelf.old)) ×
        CommandEnded read.asked read.held net.old net.new Status.Spent text ×
        (K.tells sink.old → K.taken sink.new ≡ K.taken sink.old ++ text) }
    ensures full { result ≡ Status.Full →
        (text : List ℕ) × (read : HasRead (F.tells shelf.old) (map (λ word. word.now) words.now) (F.content shelf.old)) ×
        IsRun read.asked × CommandEnded read.asked read.held net.old net.new Status.Full text ×
        (K.tells sink.old → K.taken sink.new ≡ K.taken sink.old ++ text) }
    ensures stuck { result ≡ Status.Stuck →
        (text : List ℕ) × (read : HasRead (F.tells shelf.old) (map (λ word. word.now) words.now) (F.content shelf.old)) ×
        CommandEnded read.asked read.held net.old net.new Status.Stuck text ×
        (K.tells sink.old → K.taken sink.new ≡ K.taken sink.old ++ text) }

    // No count of the shelf's faults has risen, but where a file wasn't read, or where no text was written whole.
    ensures reads { (F.faults shelf.new ≡ F.faults shelf.old) ⊎
        ((result ≡ Status.ReadFault) ⊎ ((result ≡ Status.WriteFault) ⊎ (result ≡ Status.NoMemory))) }

    // A trial asks nothing of the shelf: what it holds and its counts stay as they are, and no read fails.
    ensures trial { (number : ℕ) → WordsOf (map (λ word. word.now) words.now) ≡ Some (ATrial number) → shelf.new ≡ shelf.old }
    ensures no_read { (number : ℕ) → WordsOf (map (λ word. word.now) words.now) ≡ Some (ATrial number) →
        ¬ (result ≡ Status.ReadFault) }

    // A command that accepts what its files hold, or the texts that it makes, comes to its end, where no file and no sink meets a fault and
    // there is memory.
    ensures complete { F.tells shelf.old → (accepted : IsAccepted (map (λ word. word.now) words.now) (F.content shelf.old)) →
        NoneRisen accepted.asked (F.faults shelf.old) (F.faults shelf.new) →
        ¬ HasRisen (K.faults sink.old) (K.faults sink.new) →
        EndsWith accepted.asked result ⊎ (result ≡ Status.NoMemory) }
{
    call(alloc, words, shelf, sink, net)
}
