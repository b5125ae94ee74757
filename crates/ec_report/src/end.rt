//! How a run comes to its end, as a report tells it.
use ec_world::room::Part;
use ec_world::run::RunEnd;
use ec_world::value::NodeNo;

/// How a run came to its end: by itself, or as a node had no room for what an entry needs there (blocks, or bytes of
/// text).
#[derive(Clone, Copy, PartialEq, Eq, Debug)]
pub enum ReportEnd {
    Ends(RunEnd),
    IsFull {
        node: NodeNo,
        part: Part,
        need: u64,
        free: u64,
    },
}
