//! The words of the command line, read by `clap`.
ghost use Rattle.std.specs.Prelude.{◌≡◌, ◌≤◌, IfOk, IfSome, map, option_map, Some, None, false, codes};
ghost use Rattle.clap.specs.Words.{app_of, rule_of, rows_of, found_of, one_of};
ghost use Rattle.clap.specs.declared.Command.{out-Command as fields_of};
ghost use Rattle.ec_inputs.specs.Words as spec;
ghost use Rattle.ec_inputs.specs.Words.{WordsOf, IsBudget, IsTrialNumber, HasBudget};

use clap::error::ErrorKind;
use clap::{Arg, ArgMatches};
use std::alloc::{AllocError, Global};

/// What the words of the command line ask for.
#[derive(Clone, Copy, PartialEq, Eq, Debug)]
pub enum Command<'a> {
    /// `run SOURCE NODES SCHEDULE [--budget N]`
    Run(RunCommand<'a>),
    /// `check SOURCE`
    Check(CheckCommand<'a>),
    /// `mean SOURCE NODES SCHEDULE [--budget N]`
    Mean(RunCommand<'a>),
    /// `trial N`, of this number.
    Trial(u32),
}

/// The words of a run, or of its meaning.
#[derive(Clone, Copy, PartialEq, Eq, Debug)]
pub struct RunCommand<'a> {
    /// The name of the file with the source.
    pub source: &'a str,
    /// The name of the file with the nodes.
    pub nodes: &'a str,
    /// The name of the file with the schedule.
    pub schedule: &'a str,
    /// The most entries that the run does, from 1 to 4,000,000,000.
    pub budget: u32,
}

/// The words of a check.
#[derive(Clone, Copy, PartialEq, Eq, Debug)]
pub struct CheckCommand<'a> {
    /// The name of the file with the source.
    pub source: &'a str,
}

/// The most entries that a run does where the words don't say.
pub const DEFAULT_BUDGET: u32 = 1_000_000;

/// The command that the words give, the program's own name first, or none.
/// An error is want of memory.
pub fn words_of<'a>(alloc: Global, words: &'a [&'a str]) -> Result<Option<Command<'a>>, AllocError>
    ensures words { IfOk result (λ found. option_map spec.command_in found ≡ WordsOf (map (λ word. word.now) words.entry.now)) }
    ensures budget { IfOk result (λ found. IfSome found HasBudget) }
{
    let command = emerald(alloc)?;
    match command.try_get_matches_from(words) {
        Err(error) => {
            if error.kind() == ErrorKind::OutOfMemory {
                Err(AllocError)
            } else {
                Ok(None)
            }
        }
        Ok(matches) => match matches.subcommand() {
            Some((name, found)) => Ok(command_of(name, found)),
            None => Ok(None),
        },
    }
}

/// The command line.
fn emerald<'a>(alloc: Global) -> Result<clap::Command<'a>, AllocError>
    ensures { IfOk result (λ c. app_of c ≡ spec.app) }
{
    of_files(alloc)?.subcommand(trial(alloc)?)
}

/// The commands that name files.
fn of_files<'a>(alloc: Global) -> Result<clap::Command<'a>, AllocError>
    ensures { IfOk result (λ c. app_of c ≡ spec.of_files) }
{
    let plain = clap::Command::new(alloc, "emerald")
        .disable_help_flag(true)
        .disable_help_subcommand(true)
        .disable_version_flag(true)
        .subcommand_required(true);
    plain
        .subcommand(run_named(alloc, "run")?)?
        .subcommand(check(alloc)?)?
        .subcommand(run_named(alloc, "mean")?)
}

/// The words of a run, behind this name.
fn run_named<'a>(alloc: Global, name: &'a str) -> Result<clap::Command<'a>, AllocError>
    ensures shape { IfOk result (λ c. app_of c ≡ spec.run_named name.entry.now) }
    ensures local { IfOk result (λ c. (fields_of c).has_globals ≡ false) }
{
    clap::Command::new(alloc, name)
        .arg(required_word(alloc, "source"))?
        .arg(required_word(alloc, "nodes"))?
        .arg(required_word(alloc, "schedule"))?
        .arg(budget(alloc))
}

fn check<'a>(alloc: Global) -> Result<clap::Command<'a>, AllocError>
    ensures shape { IfOk result (λ c. app_of c ≡ spec.check) }
    ensures local { IfOk result (λ c. (fields_of c).has_globals ≡ false) }
{
    clap::Command::new(alloc, "check").arg(required_word(alloc, "source"))
}

fn trial<'a>(alloc: Global) -> Result<clap::Command<'a>, AllocError>
    ensures shape { IfOk result (λ c. app_of c ≡ spec.trial) }
    ensures local { IfOk result (λ c. (fields_of c).has_globals ≡ false) }
{
    clap::Command::new(alloc, "trial").arg(trial_number(alloc))
}

fn required_word<'a>(alloc: Global, name: &'a str) -> Arg<'a>
    ensures rule { rule_of result ≡ spec.required_word name.entry.now }
    ensures local { result.global ≡ false }
{
    Arg::new(alloc, name).required(true)
}

fn budget<'a>(alloc: Global) -> Arg<'a>
    ensures rule { rule_of result ≡ spec.budget }
    ensures local { result.global ≡ false }
{
    Arg::new(alloc, "budget")
        .long("budget")
        .default_value("1000000")
        .value_parser(clap::value_parser!(u32).range(1..=4_000_000_000))
}

fn trial_number<'a>(alloc: Global) -> Arg<'a>
    ensures rule { rule_of result ≡ spec.trial_number }
    ensures local { result.global ≡ false }
{
    required_word(alloc, "number").value_parser(clap::value_parser!(u32))
}

/// The command of this name, with what was found for its arguments.
fn command_of<'a>(name: &str, found: &ArgMatches<'a>) -> Option<Command<'a>>
    requires run { name.now ≡ codes "run" → IsBudget (one_of (codes "budget") (rows_of (found_of found.now))) }
    requires mean { name.now ≡ codes "mean" → IsBudget (one_of (codes "budget") (rows_of (found_of found.now))) }
    requires trial { name.now ≡ codes "trial" → IsTrialNumber (one_of (codes "number") (rows_of (found_of found.now))) }
    ensures words { option_map spec.command_in result ≡ spec.command_named name.now (rows_of (found_of found.now)) }
    ensures budget { IfSome result HasBudget }
{
    match name {
        "run" => Some(Command::Run(run_of(found))),
        "check" => Some(Command::Check(check_of(found))),
        "mean" => Some(Command::Mean(run_of(found))),
        "trial" => Some(Command::Trial(trial_number_in(found))),
        _ => None,
    }
}

fn run_of<'a>(found: &ArgMatches<'a>) -> RunCommand<'a>
    requires { IsBudget (one_of (codes "budget") (rows_of (found_of found.now))) }
    ensures words { spec.run_in result ≡ spec.run_words (rows_of (found_of found.now)) }
    ensures least { 1 ≤ result.budget }
    ensures most { result.budget ≤ 4000000000 }
{
    let source = text_at("source", found);
    let nodes = text_at("nodes", found);
    let schedule = text_at("schedule", found);
    let budget = budget_in(found);
    RunCommand {
        source,
        nodes,
        schedule,
        budget,
    }
}

fn check_of<'a>(found: &ArgMatches<'a>) -> CheckCommand<'a>
    ensures { spec.check_in result ≡ spec.check_words (rows_of (found_of found.now)) }
{
    CheckCommand {
        source: text_at("source", found),
    }
}

/// The text that was found for an argument.
fn text_at<'a>(id: &str, found: &ArgMatches<'a>) -> &'a str
    ensures { result.now ≡ spec.text_at id.now (rows_of (found_of found.now)) }
{
    match found.get_str(id) {
        Some(text) => text,
        None => "",
    }
}

/// The number that was found for the budget.
fn budget_in(found: &ArgMatches) -> u32
    requires { IsBudget (one_of (codes "budget") (rows_of (found_of found.now))) }
    ensures number { result ≡ spec.number_at (codes "budget") (rows_of (found_of found.now)) }
    ensures least { 1 ≤ result }
    ensures most { result ≤ 4000000000 }
{
    found.get_one::<u32>("budget").unwrap()
}

/// The number that was found for a trial.
fn trial_number_in(found: &ArgMatches) -> u32
    requires { IsTrialNumber (one_of (codes "number") (rows_of (found_of found.now))) }
    ensures { result ≡ spec.number_at (codes "number") (rows_of (found_of found.now)) }
{
    found.get_one::<u32>("number").unwrap()
}
