//! What holds of worlds, over any meaning of activations.
ghost use Rattle.ec_world.specs.Laws.{EachGrantedWaits, EachQueueTells, EachRunKeepsQueues, EachStatusTells, EntriesKeepQueues};
ghost use Rattle.ec_world.specs.Laws.{UnblockedWaitNowhere};

use crate::activation::Activation;

/// Queues of monitors and statuses of processes tell the same at first, and after each entry after which they did before it.
pub fn entries_keep_queues<A: Activation>()
    ensures { EntriesKeepQueues A.meaning }
{}

/// They do in each world of each run.
pub fn each_run_keeps_queues<A: Activation>()
    ensures { EachRunKeepsQueues A.meaning }
{}

/// Whoever an action grants a monitor is another process, which is there, is blocked, and has an activation on top.
pub fn each_granted_waits<A: Activation>()
    ensures { EachGrantedWaits A.meaning }
{}

/// Who stands in a queue is there, is blocked as the queue tells, and has an activation on top.
pub fn each_queue_tells<A: Activation>()
    ensures { EachQueueTells A }
{}

/// Who waits to enter a monitor, or to go on in it, stands in its queue.
pub fn each_status_tells<A: Activation>()
    ensures { EachStatusTells A }
{}

/// A process that isn't blocked stands in no queue.
pub fn unblocked_wait_nowhere<A: Activation>()
    ensures { UnblockedWaitNowhere A }
{}
