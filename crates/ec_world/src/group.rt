//! The group of an object: what moves with it.
ghost use Rattle.std.specs.Prelude.{◌≡◌, IfOk, OnOk, []};
ghost use Rattle.ec_world.specs.Group.{IsGroup, MarksGroup, group_of, link_of, links_in, links_of, marked_from};

use crate::activation::Activation;
use crate::class::{ClassNo, FieldRec};
use crate::common::Common;
use crate::value::{Oid, Value, Values, number_of};
use crate::world::World;
use ec_base::list::Seq;
use std::alloc::{AllocError, Global};

/// The members of an object's group, rising: the object, and all that it and they are attached to. A number that names
/// no object has no members. An error is want of memory, or a member whose number has more than 32 bits.
pub fn group<A: Activation>(world: &World<A>, x: Oid) -> Result<Vec<Oid>, AllocError>
    ensures is { IfOk result (λ v. v.items ≡ group_of world.now.common x) }
    ensures members { IfOk result (λ v. IsGroup world.now.common x v.items) }
{
    group_in(&world.common, x)
}

/// The same, of what a world has beside its processes.
pub(crate) fn group_in(common: &Common, x: Oid) -> Result<Vec<Oid>, AllocError>
    ensures is { IfOk result (λ v. v.items ≡ group_of common.now x) }
    ensures members { IfOk result (λ v. IsGroup common.now x v.items) }
{
    let marks = reach(common, x)?;
    marked(common.objects.allocator(), &marks)
}

/// Marks of the members of an object's group, one mark an object.
fn reach(common: &Common, x: Oid) -> Result<Seq<bool>, AllocError>
    ensures { IfOk result (λ marks. MarksGroup common.now x marks) }
{
    let alloc = common.objects.allocator();
    let mut search = Search {
        marks: Seq::from_vec(vec![in alloc; false; common.objects.len()]?),
        todo: Seq::new(alloc),
    };
    search.find(x)?;
    while let Some(oid) = search.todo.pop() {
        search.follow(common, oid)?;
    }
    Ok(search.marks)
}

/// The numbers of what is marked. An error is want of memory, or a mark whose number has more than 32 bits.
fn marked(alloc: Global, marks: &Seq<bool>) -> Result<Vec<Oid>, AllocError>
    ensures { IfOk result (λ v. v.items ≡ marked_from 1 marks.now) }
{
    let mut oids = Vec::new(alloc);
    for i in 0..marks.len() {
        if *marks.at(i) {
            oids.push(number_of(i + 1)?)?;
        }
    }
    Ok(oids)
}

/// A search along attached fields: a mark for each object that is found, and the found ones whose fields are still to
/// be looked at.
#[derive(Drop)]
struct Search {
    marks: Seq<bool>,
    todo: Seq<Oid>,
}

impl Search {
    ghost use Rattle.ec_world.specs.Search.{found, all_found};

    /// What an object is attached to is found.
    fn follow(&mut self, common: &Common, oid: Oid) -> Result<(), AllocError>
        ensures { OnOk result (self.new ≡ all_found self.old (links_of common.now oid)) }
    {
        if oid == 0 {
            return Ok(());
        }
        let Some(object) = common.objects.get(oid as usize - 1) else {
            return Ok(());
        };
        let ClassNo::Made(number) = object.class else {
            return Ok(());
        };
        let Some(class) = common.classes.get(number as usize) else {
            return Ok(());
        };
        self.find_linked(&class.fields, &object.fields)
    }

    /// The objects in attached fields are found.
    fn find_linked(&mut self, fields: &Seq<FieldRec>, values: &Values) -> Result<(), AllocError>
        ensures { OnOk result (self.new ≡ all_found self.old (links_in fields.now values.now)) }
    {
        let both = usize::min(fields.len(), values.len());
        for i in 0..both {
            self.find_in(fields.at(i), values.at(i))?;
        }
        Ok(())
    }

    /// The object in a field, where the field is attached and holds one, is found.
    fn find_in(&mut self, field: &FieldRec, value: &Value) -> Result<(), AllocError>
        ensures { OnOk result (self.new ≡ all_found self.old (link_of field.now value.now [])) }
    {
        if let Value::Ref(oid) = value {
            if field.attached {
                return self.find(*oid);
            }
        }
        Ok(())
    }

    /// An object is found, where it is there.
    fn find(&mut self, oid: Oid) -> Result<(), AllocError>
        ensures { OnOk result (self.new ≡ found self.old oid) }
    {
        if oid == 0 {
            return Ok(());
        }
        let i = oid as usize - 1;
        if let Some(false) = self.marks.get(i) {
            self.marks.set(i, true);
            self.todo.push(oid)?;
        }
        Ok(())
    }
}
