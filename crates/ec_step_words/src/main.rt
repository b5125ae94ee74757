//! Prints the words of steps, questions and jumps on both kinds of machines. `stdout` has the words that an assembler makes of
//! instructions which were written down for each of them by hand.
#![tactic(auto)]

mod ends;
mod steps;

use crate::ends::{print_mips_ends, print_riscv_ends};
use crate::steps::print_steps;
use mips_code::mips::Mips;
use rv_code::riscv::Riscv;
use std::io;

fn main(rt: HostRuntime) -> io::Result<()> {
    println!(rt; "riscv")?;
    print_steps(&rt, rt.alloc(), &Riscv)?;
    print_riscv_ends(&rt, rt.alloc())?;
    println!(rt; "mips")?;
    print_steps(&rt, rt.alloc(), &Mips)?;
    print_mips_ends(&rt, rt.alloc())
}
