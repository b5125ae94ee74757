//! What is in scope at a place of a program, and what a name means there.

mod entries;
mod globals;
mod object;
mod scope;

pub use crate::scopes::entries::{Entries, Entry};
pub use crate::scopes::globals::{ClassMeant, Global, Globals, Meaning};
pub use crate::scopes::object::Object;
pub use crate::scopes::scope::{Found, Held, Scope};
