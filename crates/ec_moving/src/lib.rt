//! What moves, by the definitions of worlds alone and for activations of any meaning: a group goes together, a fixed object goes by its own
//! refix alone, and a node never does.
#![tactic(auto)]

pub mod laws;
