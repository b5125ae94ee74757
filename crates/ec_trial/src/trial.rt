//! Making the three texts of a trial.
ghost use Rattle.std.specs.Prelude.{◌≡◌, IfOk};
ghost use Rattle.ec_trial.specs.Draws.{drawn_from};
ghost use Rattle.ec_trial.specs.Texts.{nodes_text, schedule_text, source_text};

use crate::drawing::draw_all;
use crate::nodes::write_nodes;
use crate::schedule::write_schedule;
use crate::source::write_source;
use crate::texts::Trial;
use std::alloc::{AllocError, Global};

/// The texts that a number stands for. The error is want of memory.
pub fn trial(alloc: Global, number: u32) -> Result<Trial, AllocError>
    ensures source { IfOk result (λ texts. texts.source ≡ source_text (drawn_from number)) }
    ensures nodes { IfOk result (λ texts. texts.nodes ≡ nodes_text (drawn_from number)) }
    ensures schedule { IfOk result (λ texts. texts.schedule ≡ schedule_text (drawn_from number)) }
{
    let drawn = draw_all(alloc, number)?;
    Ok(Trial {
        source: write_source(alloc, &drawn)?,
        nodes: write_nodes(alloc, &drawn)?,
        schedule: write_schedule(alloc, &drawn)?,
    })
}
