//! What holds of reached worlds, over any meaning of activations, and so of three-address code and of a source.
ghost use Rattle.ec_reached.specs.Accepted.{AcceptedSourcesAreOrderly};
ghost use Rattle.ec_reached.specs.Agreeing.{AgreeingAreOrderly, AgreeingSourcesAreOrderly};
ghost use Rattle.ec_reached.specs.Code.{EachCodeStays, EachCodeStops, EachRunOfCodeIsOrderly, EachRunOfCodeKeeps, EntriesOfCodeKeepOrder};
ghost use Rattle.ec_reached.specs.Example.{ExampleIsMet};
ghost use Rattle.ec_reached.specs.Laws.{EachAskedStands, EachBlockedRests, EachHoldCounts, EachMonitorFits, EachReachedIsOrderly, EachStackIsCalls};
ghost use Rattle.ec_reached.specs.Laws.{OrderIsKept};
ghost use Rattle.ec_reached.specs.Lowered.{EachLoweredRunIsOrderly, LoweredStops};
ghost use Rattle.ec_reached.specs.Source.{EachRunOfASourceKeeps, EachSourceStays};

use ec_world::activation::Activation;

/// Each activation that isn't on top waits for the one above it, which is what its stop called; the lowest begins its process.
pub fn each_stack_is_calls<A: Activation>()
    ensures { EachStackIsCalls A.meaning }
{}

/// The top of a blocked process is done at the stop that its status tells, on the object that this names.
pub fn each_blocked_rests<A: Activation>()
    ensures { EachBlockedRests A.meaning }
{}

/// Monitors are those of their classes, nobody waits to go on in a free one, and each process stands in it once.
pub fn each_monitor_fits<A: Activation>()
    ensures { EachMonitorFits A.meaning }
{}

/// The first world is orderly, and stays so by each action, each silent step and each move.
pub fn order_is_kept<A: Activation>()
    ensures { OrderIsKept A.meaning }
{}

/// Each world that is reached is orderly.
pub fn each_reached_is_orderly<A: Activation>()
    ensures { EachReachedIsOrderly A.meaning }
{}

/// The depth of each hold is how many activations of its process have entered.
pub fn each_hold_counts<A: Activation>()
    ensures { EachHoldCounts A.meaning }
{}

/// Activations of three-address code stay what they are, and so does what its silent steps are to leave alone.
pub fn each_code_stays()
    ensures { EachCodeStays }
{}

/// In each world of each run of code stacks are calls, blocked processes rest where their statuses tell, and monitors fit.
pub fn each_run_of_code_keeps()
    ensures { EachRunOfCodeKeeps }
{}

/// Where each operation enters at its first line alone and ends only where it isn't called, silent steps stop as is asked.
pub fn each_code_stops()
    ensures { EachCodeStops }
{}

/// So entries keep worlds of such code orderly.
pub fn entries_of_code_keep_order()
    ensures { EntriesOfCodeKeepOrder }
{}

/// So each world of each run of such code is orderly.
pub fn each_run_of_code_is_orderly()
    ensures { EachRunOfCodeIsOrderly }
{}

/// A program meets what is asked: in its runs an activation waits below another one, holds a monitor, and waits for a condition of it.
pub fn example_is_met()
    ensures { ExampleIsMet }
{}

/// What a source is lowered to enters at first lines alone, and ends a process only in operations that no class has for a call.
pub fn lowered_stops()
    ensures { LoweredStops }
{}

/// So each world of each run of what a source is lowered to is orderly.
pub fn each_lowered_run_is_orderly()
    ensures { EachLoweredRunIsOrderly }
{}

/// Activations of a source stay what they are, and so does what its silent steps are to leave alone.
pub fn each_source_stays()
    ensures { EachSourceStays }
{}

/// In each world of each run of a source stacks are calls, blocked processes rest where their statuses tell, and monitors fit.
pub fn each_run_of_a_source_keeps()
    ensures { EachRunOfASourceKeeps }
{}

/// A world that agrees with an orderly one is orderly.
pub fn agreeing_are_orderly<A: Activation, B: Activation>()
    ensures { AgreeingAreOrderly A.meaning B.meaning }
{}

/// So each world of a source is that agrees with the one of the program to which it is lowered.
pub fn agreeing_sources_are_orderly()
    ensures { AgreeingSourcesAreOrderly }
{}

/// And so each world of the source of an accepted program.
pub fn accepted_sources_are_orderly()
    ensures { AcceptedSourcesAreOrderly }
{}

/// In an orderly world those stand in a monitor that have asked to enter it and haven't left it, and no others.
pub fn each_asked_stands<A: Activation>()
    ensures { EachAskedStands A.meaning }
{}
