//! An accepted program with its images for both kinds of machine.
ghost use Rattle.std.specs.Prelude.{IfOk};
ghost use Rattle.ec_compile.specs.Texts.{IsOfText};
ghost use Rattle.ec_emission.specs.Lowered.{IsLowered};
ghost use Rattle.ec_meaning.specs.Sources.{source_of};
ghost use Rattle.ec_runnable.specs.Runnable.{IsRunnable};

use ec_cluster::cluster::Images;
use ec_code::code::Parts;
use ec_compile::mips_compile::compile_for_mips;
use ec_compile::rv_compile::compile_for_riscv;
use ec_meaning::source::Program;
use std::alloc::{AllocError, Global};

/// A program of three-address code, with its machine code and its stop table for each kind.
#[derive(Drop)]
pub struct Runnable {
    pub parts: Parts,
    pub images: Images,
}

/// What the program of an accepted text is lowered to, with its images for both kinds, so that nodes of either kind can run it. The error
/// is want of memory.
pub fn prepare(alloc: Global, program: &Program<'_>) -> Result<Runnable, AllocError>
    requires accepted { IsOfText (source_of program.now) }
    ensures lowered { IfOk result (λ made. IsLowered (source_of program.now) made.parts) }
    ensures runnable { IfOk result (λ made. IsRunnable made.parts made.images) }
{
    let riscv = compile_for_riscv(alloc, program)?;
    let mips = compile_for_mips(alloc, program)?;
    let images = Images {
        riscv: riscv.image,
        mips: mips.image,
    };
    Ok(Runnable {
        parts: riscv.program.into_parts(),
        images,
    })
}
