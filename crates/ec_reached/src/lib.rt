//! What holds of each world that is reached from the start of a program by turns and moves, over the definitions of worlds alone and for
//! activations of any meaning: stacks are calls, the lowest activation of a process runs the program or a process section, depths of monitors
//! are what has entered, and who is blocked stands in one queue. So it is for three-address code, for what a source is lowered to, and for
//! a source.
//!
//! | definitions | what they say |
//! |---|---|
//! | `Meant` | what is asked of a meaning of activations, and of its silent steps |
//! | `Stacks` | what a stop calls, stacks of calls, where blocked processes rest |
//! | `Depths` | monitors of classes, how deep processes are in them, who stands in their queues |
//! | `Orderly`, `Laws` | all of it of one world; that each reached world has it |
//! | `Code`, `Lowered`, `Source`, `Agreeing`, `Accepted` | the same of code, of lowered code, of a source, of worlds that agree, and of accepted programs |
//! | `Example` | a program in whose runs a process waits for a condition |
#![tactic(auto)]

pub mod laws;
