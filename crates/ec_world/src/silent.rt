//! What runs activations between their stops.
ghost use Rattle.std.specs.Prelude.{◌≡◌, IfOk};
ghost use Rattle.ec_world.specs.declared.common.Common.{Common as ACommon};

use crate::activation::Activation;
use crate::common::Common;
use std::alloc::AllocError;

/// The code of activations, from behind each stop to the next one.
pub trait Silent<A: Activation>: Drop {
    ghost steps: { Self → ACommon → A → ACommon × A };

    /// Silent steps of an activation from behind a stop to the next one, with what the world has then beside its processes. The
    /// error is want of memory, or a number that has more bits than its table has.
    fn go_on(&self, common: Common, a: A) -> Result<(Common, A), AllocError>
        ensures { IfOk result (λ r. r ≡ steps self.now common a) };
}
