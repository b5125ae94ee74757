//! What is answered: a status, with the whole text that is to be written.
ghost use Rattle.std.specs.Prelude.{◌≡◌, IfOk};
ghost use Rattle.ec_report.specs.Says.{Says};

use crate::status::Status;
use std::alloc::{AllocError, Global};

/// A status, with the whole text that is to be written.
#[derive(Drop)]
pub struct Answer {
    pub status: Status,
    pub text: Vec<u8>,
}

/// This status, with this text.
pub fn answer_with(alloc: Global, status: Status, text: &[u8]) -> Result<Answer, AllocError>
    ensures { IfOk result (λ answer. Says answer status text.now) }
{
    let text = Vec::from_slice(alloc, text)?;
    Ok(Answer { status, text })
}
