//! Cases, one behind the other, line by line.
use crate::compile::compile_text;
use crate::error::Fault;
use crate::run::{Ran, run_loop};
use ec_world::node::Kind;
use std::alloc::Global;
use std::mem::ManuallyDrop;

/// How many runs came out as their case says, and how many didn't.
#[derive(Clone, Copy)]
pub struct Tally {
    pub passed: u32,
    pub failed: u32,
}

/// A case: its name, its source, and the number that its loop should come to.
#[derive(Drop)]
struct Case<'a> {
    name: &'a str,
    source: Vec<u8>,
    result: Option<i32>,
}

/// Tells of each case of a text.
pub fn tell_all(rt: &impl Print, alloc: Global, text: &str) -> Result<Tally, Fault> {
    let mut tally = Tally {
        passed: 0,
        failed: 0,
    };
    let mut last = None;
    for line in text.lines() {
        if let Some(name) = line.strip_prefix("case ") {
            tell_if(rt, alloc, &last, &mut tally)?;
            last = Some(Case::new(alloc, name));
        } else if let Some(case) = &mut last {
            case.take(alloc, line)?;
        }
    }
    tell_if(rt, alloc, &last, &mut tally)?;
    Ok(tally)
}

fn tell_if(
    rt: &impl Print,
    alloc: Global,
    case: &Option<Case>,
    tally: &mut Tally,
) -> Result<(), Fault> {
    match case {
        Some(case) => case.tell(rt, alloc, tally),
        None => Ok(()),
    }
}

impl Tally {
    /// Counts a run.
    fn count(&mut self, is_passed: bool) {
        if is_passed {
            self.passed = self.passed.saturating_add(1);
        } else {
            self.failed = self.failed.saturating_add(1);
        }
    }
}

impl<'a> Case<'a> {
    fn new(alloc: Global, name: &'a str) -> Case<'a> {
        Case {
            name,
            source: Vec::new(alloc),
            result: None,
        }
    }

    /// Takes a line.
    fn take(&mut self, alloc: Global, line: &str) -> Result<(), Fault> {
        if line.is_empty() || line.starts_with('#') {
            return Ok(());
        }
        if let Some(text) = line.strip_prefix('|') {
            self.source.extend_from_slice(text.as_bytes())?;
            self.source.push(b'\n')?;
        } else if let Some(number) = line.strip_prefix("result ") {
            self.result = Some(number.parse()?);
        } else {
            return Err(Fault::NoSuchLine(String::from_str(alloc, line)?));
        }
        Ok(())
    }

    /// Runs its loop on each kind of machine, and tells what comes of it.
    fn tell(&self, rt: &impl Print, alloc: Global, tally: &mut Tally) -> Result<(), Fault> {
        let Some(wanted) = self.result else {
            return Err(Fault::NoResult(String::from_str(alloc, self.name)?));
        };
        for (kind, name) in [(Kind::Riscv, "riscv"), (Kind::Mips, "mips")] {
            let ran = self.run(alloc, kind, None)?;
            self.tell_run(rt, name, ran, wanted)?;
            tally.count(ran.result == Some(wanted));
            for registers in [0, 3] {
                let few = self.run(alloc, kind, Some(registers))?;
                tally.count(few.result == Some(wanted));
                if few.result != Some(wanted) {
                    println!(rt;
                        "{} {name} with {registers} registers comes out otherwise",
                        self.name
                    )?;
                }
            }
        }
        Ok(())
    }

    /// Runs its loop on a kind of machine; where a number is given, with at most so many registers as homes.
    fn run(&self, alloc: Global, kind: Kind, registers: Option<u32>) -> Result<Ran, Fault> {
        let made = ManuallyDrop::new(compile_text(alloc, kind, registers, &self.source)?);
        Ok(run_loop(alloc, kind, &made)?)
    }

    /// Tells of a run.
    fn tell_run(&self, rt: &impl Print, kind: &str, ran: Ran, wanted: i32) -> Result<(), Fault> {
        let Ran {
            instructions,
            result,
        } = ran;
        match result {
            Some(came) if came == wanted => {
                println!(rt; "{} {kind} {instructions} ok", self.name)?;
            }
            Some(came) => println!(rt; "{} {kind} {instructions}, and came to {came}", self.name)?,
            None => println!(rt;
                "{} {kind} {instructions}, and came to no number",
                self.name
            )?,
        }
        Ok(())
    }
}
