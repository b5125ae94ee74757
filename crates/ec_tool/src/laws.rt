//! What the promises of the call rest on: each program has a meaning, its vectors have types that it writes, and what the headline asks of a call can be had.
ghost use Rattle.ec_tool.specs.Example.{example_words, example_shelf, example_sink};
ghost use Rattle.ec_tool.specs.Laws.{EachCheckedIsMeant, EachVectorIsWritten};
ghost use Rattle.ec_tool.specs.Promises.{IsAcceptedCall};

use ec_outside::mem_shelf::MemShelf;
use ec_outside::mem_sink::MemSink;
use ec_outside::shelf::Shelf;
use ec_outside::sink::Sink;

/// A text that a check accepts has a meaning.
pub fn each_checked_is_meant()
    ensures { EachCheckedIsMeant }
{}

/// The code of a source makes vectors of no type but those that its text writes.
pub fn each_vector_is_written()
    ensures { EachVectorIsWritten }
{}

/// The headline speaks of a call: the empty source is run on one node, from a shelf and to a sink in memory, which tell what they hold, and
/// no count of theirs rises.
pub fn example_is_accepted()
    ensures { IsAcceptedCall
        (⟦<MemShelf<'static> as Shelf>⟧.tells example_shelf) (⟦<MemSink<'static> as Sink>⟧.tells example_sink)
        example_words (⟦<MemShelf<'static> as Shelf>⟧.content example_shelf)
        (⟦<MemShelf<'static> as Shelf>⟧.faults example_shelf) (⟦<MemShelf<'static> as Shelf>⟧.faults example_shelf)
        (⟦<MemSink<'static> as Sink>⟧.faults example_sink) (⟦<MemSink<'static> as Sink>⟧.faults example_sink) }
{}
