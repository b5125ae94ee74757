//! The step from an answer to what is written.
ghost use Rattle.ec_tool.specs.Writing.{ComesOut};

use ec_outside::sink::Sink;
use ec_outside::whole::write_whole;
use ec_report::answer::Answer;
use ec_report::status::Status;

/// Writes the text of an answer, and gives the status with which the program ends.
pub fn write_answer<K: Sink>(sink: &mut K, answer: &Answer) -> Status
    ensures { ComesOut (K.tells sink.old) (K.taken sink.old) (K.taken sink.new) (K.faults sink.old) (K.faults sink.new)
        answer.now.status answer.now.text.items result }
{
    match write_whole(sink, &answer.text) {
        Ok(()) => answer.status,
        Err(_) => Status::WriteFault,
    }
}
