//! The three texts of a trial.
use ec_world::value::Text;

/// The texts of a trial: those that a run reads.
#[derive(Drop)]
pub struct Trial {
    pub source: Text,
    pub nodes: Text,
    pub schedule: Text,
}
