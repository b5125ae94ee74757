//! What is drawn for a trial.
use ec_base::list::Seq;
use ec_world::node::Kind;
use ec_world::run::RunEntry;

/// What is drawn for a trial: how many workers there are (2 to 8), how many rounds each goes (100 to 2,000), what the shared cell
/// begins with (0 to 999), how many nodes there are (1 to 6) and of which kinds, and the entries of the schedule (300).
#[derive(Drop)]
pub struct Drawn {
    pub workers: u32,
    pub rounds: u32,
    pub start: u32,
    pub nodes: u32,
    pub kinds: Seq<Kind>,
    pub entries: Seq<RunEntry>,
}
