//! An accepted program with its images for both kinds of machine, so that nodes of either kind can run it (`prepare`).
//!
//! Two families of laws on lowered code stand beside it: on each line a live variable has one type (`typed_once`), and at each stop there are
//! few values, each another one (`few_values`).
#![tactic(auto)]

pub mod few_values;
pub mod prepare;
pub mod typed_once;
