//! The members of a group on nodes.
ghost use Rattle.std.specs.BTreeSet.{IsOrdered};
ghost use Rattle.std.specs.Ordering.{nat_cmp};
ghost use Rattle.std.specs.Prelude.{◌≡◌, [], ◌∷◌, IfOk, OnOk};
ghost use Rattle.ec_cluster.specs.Whereabouts.{made_count};
ghost use Rattle.ec_cluster.specs.Decoded.{seen_common};
ghost use Rattle.ec_cluster.specs.Searches.{HasGroup};
ghost use Rattle.ec_world.specs.Group.{group_of};

use crate::seen::links::links;
use crate::seen::seen::Seen;
use ec_base::list::Seq;
use ec_world::value::Oid;
use std::alloc::{AllocError, Global};
use std::collections::BTreeSet;

/// The members of an object's group, rising. It takes the time of the members and their fields. The error is want of memory.
pub(crate) fn members(seen: &Seen<'_>, alloc: Global, oid: Oid) -> Result<Vec<Oid>, AllocError>
    ensures { IfOk result (λ members. members.items ≡ group_of (seen_common seen.now) oid) }
{
    let found = reach(seen, alloc, oid)?;
    in_order(alloc, &found)
}

/// The numbers of a set, rising.
fn in_order(alloc: Global, numbers: &BTreeSet<Oid>) -> Result<Vec<Oid>, AllocError>
    ensures items { IfOk result (λ oids. oids.items ≡ numbers.now.keys) }
    ensures rising { IsOrdered nat_cmp numbers.now }
{
    numbers.iter().copied().collect(alloc)
}

/// The members of an object's group.
fn reach(seen: &Seen<'_>, alloc: Global, oid: Oid) -> Result<BTreeSet<Oid>, AllocError>
    ensures { IfOk result (λ members. HasGroup seen.now oid members) }
{
    let mut search = Search {
        members: BTreeSet::new(alloc),
        todo: Seq::new(alloc),
    };
    search.find(seen, oid)?;
    while let Some(next) = search.todo.pop() {
        let linked = links(seen, alloc, next)?;
        search.find_all(seen, &linked)?;
    }
    Ok(search.members)
}

/// A search along attached fields: the objects that are found, and those whose fields are still to be looked at.
#[derive(Drop)]
struct Search {
    members: BTreeSet<Oid>,
    todo: Seq<Oid>,
}

impl Search {
    ghost use Rattle.ec_cluster.specs.Searches.{Finds};

    /// Objects are found, where they are there.
    fn find_all(&mut self, seen: &Seen<'_>, oids: &[Oid]) -> Result<(), AllocError>
        ensures { OnOk result (Finds (made_count seen.now.whereabouts) self.old self.new oids.now) }
    {
        for oid in oids {
            self.find(seen, *oid)?;
        }
        Ok(())
    }

    /// An object is found, where it is there.
    fn find(&mut self, seen: &Seen<'_>, oid: Oid) -> Result<(), AllocError>
        ensures { OnOk result (Finds (made_count seen.now.whereabouts) self.old self.new (oid ∷ [])) }
    {
        if !seen.has(oid) {
            return Ok(());
        }
        if !self.members.insert(oid)? {
            return Ok(());
        }
        self.todo.push(oid)
    }
}
