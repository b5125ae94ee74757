//! Small trials of a node's parts, each against values from outside: names, the whereabouts of objects, an object's words, a frame; what the bytes
//! of a parcel decide at a node, and what is told of parcels that don't fit there. They stand here so that the crates of these parts are proved once.
#![tactic(auto)]

#[cfg(test)]
mod frames;
#[cfg(test)]
mod names;
#[cfg(test)]
mod numbering;
#[cfg(test)]
mod objects;
#[cfg(test)]
mod trials;
#[cfg(test)]
mod whereabouts;
