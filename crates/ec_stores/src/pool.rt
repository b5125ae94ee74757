//! Texts, each once.
ghost use Rattle.std.specs.Prelude.{◌≡◌, ◌≢◌, ◌-◌, ◌^◌, ◌≤◌, ◌<◌, ◌++◌, [], ◌∷◌, ℕ, Some, length};
ghost use Rattle.std.specs.Prelude.{slice_get, IfOk, IfSome, IfNone, OnOk, OnErr};
ghost use Rattle.std.specs.BTreeMap.{IsUnchanged, Updates};
ghost use Rattle.ec_stores.specs.Tables.{by_bytes};

use ec_world::value::Text;
use std::alloc::{AllocError, Global};
use std::collections::BTreeMap;
use std::marker::Model;

/// Texts by their places, from 0, each of them once, how many bytes they may have in all, and how many more.
#[derive(Drop)]
pub struct Pool {
    texts: Vec<Text>,
    // the place of each text
    places: BTreeMap<Vec<u8>, u32>,
    room: u32,
    free: u32,
    alloc: Global,
}

impl Model for Pool {
    ghost use Rattle.ec_stores.specs.Tables.{ArePlaces, TextPool};

    ghost Value = { TextPool };

    ghost view = { λ p. record { texts = p.texts.items; room = p.room; free = p.free } };

    ghost invariant = { λ p. ArePlaces p.places p.texts.items };
}

impl Pool {
    /// No texts, with room for so many bytes.
    pub fn new(alloc: Global, room: u32) -> Pool
        ensures { result ≡ record { texts = []; room = room; free = room } }
    {
        Pool {
            texts: Vec::new(alloc),
            places: BTreeMap::new(alloc),
            room,
            free: room,
            alloc,
        }
    }

    /// How many there are, at most 2^32.
    pub(crate) fn len(&self) -> usize
        ensures is { result ≡ length self.now.texts }
        ensures few { result ≤ 2 ^ 32 }
    {
        self.texts.len()
    }

    /// How many bytes more there is room for.
    pub fn free(&self) -> u32
        ensures { result ≡ self.now.free }
    {
        self.free
    }

    /// The place of a text, if it is there.
    pub fn find(&self, text: &[u8]) -> Option<u32>
        ensures some { IfSome result (λ i. slice_get self.now.texts i ≡ Some text.now) }
        ensures none { IfNone result ((i : ℕ) → slice_get self.now.texts i ≢ Some text.now) }
    {
        self.places.get(text).copied()
    }

    /// The text at a place.
    pub(crate) fn at(&self, place: u32) -> &Text
        requires { place < length self.now.texts }
        ensures { slice_get self.now.texts place ≡ Some result.now }
    {
        &self.texts[place as usize]
    }

    /// A text that isn't there, behind the others. The error is want of memory, or that there are 2^32 texts; nothing has
    /// changed then.
    pub fn add(&mut self, text: Text) -> Result<u32, AllocError>
        requires new { (i : ℕ) → slice_get self.old.texts i ≢ Some text }
        requires room { length text ≤ self.old.free }
        ensures added { OnOk result (self.new ≡
            record { texts = self.old.texts ++ text ∷ []; room = self.old.room; free = self.old.free - length text }) }
        ensures place { IfOk result (λ place. place ≡ length self.old.texts) }
        ensures err { OnErr result (self.new ≡ self.old) }
    {
        let count = self.texts.len();
        if count > 0xFFFF_FFFF {
            return Err(AllocError);
        }
        let place = count as u32;
        let bytes = text.len() as u32;
        let key = Vec::from_slice(self.alloc, text.as_slice())?;
        self.texts.reserve(1)?;
        enter(&mut self.places, key, place)?;
        self.texts.push(text)?;
        self.free -= bytes;
        Ok(place)
    }
}

// A text gets a place. The error is want of memory, and then nothing has changed.
fn enter(places: &mut BTreeMap<Vec<u8>, u32>, key: Vec<u8>, place: u32) -> Result<(), AllocError>
    ensures entered { OnOk result (Updates by_bytes places.old places.new key (Some place)) }
    ensures kept { OnErr result (IsUnchanged places.old places.new) }
{
    places.insert(key, place)?;
    Ok(())
}
