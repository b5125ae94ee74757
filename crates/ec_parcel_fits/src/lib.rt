//! Whether a stranger's parcel fits at a node, so that its bytes can be unpacked there; or what of it doesn't, and why.
//!
//! | modules | what they have |
//! |---|---|
//! | `unfitting` | of any parcel, whether it fits: its objects, its monitors, and room |
//! | `stops` | the same of its activations |
//! | `causes` | what of a parcel doesn't fit, and why |
//! | `laws` | what is told is a reason |
#![tactic(auto)]

pub mod causes;
pub mod laws;
mod stops;
pub mod unfitting;
