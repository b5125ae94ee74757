//! The names that an expression uses, and those that an object constructor captures.
ghost use Rattle.std.specs.Prelude.{◌≡◌, ◌++◌, [], ◌∷◌, map, IfOk, OnOk};
ghost use Rattle.ec_rules.specs.Captures as spec;

use ec_ast::Name;
use ec_types::names::Names;
use ec_types::scopes::Found;
use std::alloc::{AllocError, Global};
use std::marker::Model;

/// A name that is used for a parameter, result, local or field of the object so many further out.
#[derive(Clone, Copy)]
pub struct Use<'a> {
    pub name: &'a Name,
    pub out: usize,
}

/// Names that are used, in their order. A contract sees the list of them.
#[derive(Drop)]
pub struct Uses<'a> {
    uses: Vec<Use<'a>>,
}

impl<'a> Model for Uses<'a> {
    ghost use Rattle.std.specs.Prelude.{List, map};
    ghost use Rattle.ec_rules.specs.Captures.{Use, use_seen};

    ghost Value = { List Use };

    ghost view = { λ u. map use_seen u.uses.items };
}

impl<'a> Uses<'a> {
    /// None.
    pub fn new(alloc: Global) -> Uses<'a>
        ensures { result ≡ [] }
    {
        Uses {
            uses: Vec::new(alloc),
        }
    }

    fn push(&mut self, name: &'a Name, out: usize) -> Result<(), AllocError>
        ensures { OnOk result (self.new ≡ self.old ++ record { name = name.now; out = out } ∷ []) }
    {
        self.uses.push(Use { name, out })?;
        Ok(())
    }

    fn as_slice(&self) -> &[Use<'a>]
        ensures { map spec.use_seen result.now ≡ self.now }
    {
        self.uses.as_slice()
    }
}

/// Notes the use of a name, where it is that of a parameter, result, local or field. The error is want of memory.
pub fn note_use<'a>(uses: &mut Uses<'a>, name: &'a Name, found: Found) -> Result<(), AllocError>
    ensures { OnOk result (uses.new ≡ uses.old ++ spec.use_of name.now found) }
{
    match found {
        Found::Held(h) => uses.push(name, h.out),
        Found::Constant(_) | Found::Nothing => Ok(()),
    }
}

fn capture(taken: &mut Names, u: Use<'_>) -> Result<(), AllocError>
    ensures { OnOk result (taken.new ≡ spec.captured_behind taken.old (spec.use_seen u.entry ∷ [])) }
{
    if u.out == 0 || taken.has(u.name.text.as_slice())? {
        return Ok(());
    }
    taken.push(u.name.text.as_slice())
}

/// The names that an object constructor captures, from all that are used within it. The error is want of memory.
pub fn captured(alloc: Global, uses: &Uses<'_>) -> Result<Names, AllocError>
    ensures { IfOk result (λ names. names ≡ spec.captured uses.now) }
{
    let mut taken = Names::new(alloc);
    for u in uses.as_slice() {
        capture(&mut taken, *u)?;
    }
    Ok(taken)
}

fn note_outside<'a>(uses: &mut Uses<'a>, name: &'a Name, out: usize) -> Result<(), AllocError>
    ensures { OnOk result (uses.new ≡ uses.old ++ spec.use_outside name.now out) }
{
    match out.checked_sub(1) {
        None => Ok(()),
        Some(further) => uses.push(name, further),
    }
}

/// What the uses within an object constructor are to what surrounds it. The error is want of memory.
pub fn use_outside<'a>(uses: &mut Uses<'a>, within: &Uses<'a>) -> Result<(), AllocError>
    ensures { OnOk result (uses.new ≡ uses.old ++ spec.uses_outside within.now) }
{
    for u in within.as_slice() {
        note_outside(uses, u.name, u.out)?;
    }
    Ok(())
}
