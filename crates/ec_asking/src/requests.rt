//! What the action of an activation comes to.
use ec_world::doing::Doing;
use ec_world::stop::Who;

/// Who acts, and what its action comes to.
#[derive(Drop)]
pub struct Asked {
    pub who: Who,
    pub doing: Doing,
}
