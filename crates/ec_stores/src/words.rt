//! The words of owners, and constants.
ghost use Rattle.std.specs.Prelude.{◌≡◌, ◌≢◌, ◌<◌, IsSome, Some};
ghost use Rattle.ec_world.specs.declared.key.Key.TheVariants.{Object as OfObject, Frame as OfFrame};
ghost use Rattle.ec_stores.specs.Node.{KeepsBytes, store_of};
ghost use Rattle.ec_stores.specs.Changes.{FirstBlock, OwnsWord, WordIs, WritesGlobal, WritesWord};
ghost use Rattle.ec_world.specs.declared.key.Key.{Key};

use crate::lists::{global_word, set_word_of, word_of};
use crate::node::NodeStore;
use ec_world::value::{Oid, Pid};

impl NodeStore {
    /// Word i of an object, whose blocks have 128 each.
    pub fn object_word(&self, oid: Oid, i: u32) -> u32
        requires { OwnsWord (store_of self.now) (OfObject oid) i }
        ensures { WordIs (store_of self.now) (OfObject oid) i result }
    {
        match self.objects.get(&oid) {
            Some(row) => word_of(&self.memory, row.blocks.as_slice(), i),
            None => unreachable!(),
        }
    }

    /// Writes word i of an object.
    pub fn set_object_word(&mut self, oid: Oid, i: u32, word: u32)
        requires { OwnsWord (store_of self.old) (OfObject oid) i }
        ensures { WritesWord (store_of self.old) (store_of self.new) (OfObject oid) i word }
    {
        match self.objects.get(&oid) {
            Some(row) => set_word_of(&mut self.memory, row.blocks.as_slice(), i, word),
            None => unreachable!(),
        }
    }

    /// Word i of an activation, of its 128.
    pub fn frame_word(&self, process: Pid, depth: u32, i: u32) -> u32
        requires { OwnsWord (store_of self.now) (OfFrame process depth) i }
        ensures { WordIs (store_of self.now) (OfFrame process depth) i result }
    {
        match self.frames.find(process, depth) {
            Some(row) => word_of(&self.memory, &[row.block], i),
            None => unreachable!(),
        }
    }

    /// Writes word i of an activation.
    pub fn set_frame_word(&mut self, process: Pid, depth: u32, i: u32, word: u32)
        requires { OwnsWord (store_of self.old) (OfFrame process depth) i }
        ensures writes { WritesWord (store_of self.old) (store_of self.new) (OfFrame process depth) i word }
        ensures bytes { KeepsBytes self.old self.new (OfFrame process depth) (λ j. j ≢ i) }
    {
        match self.frames.find(process, depth) {
            Some(row) => set_word_of(&mut self.memory, &[row.block], i, word),
            None => unreachable!(),
        }
    }

    /// Word i of the first block of whoever it belongs to, of its 128: found by the block, without a search.
    pub fn word_in(&self, block: u32, i: u32) -> u32
        requires owned { (key : Key) × FirstBlock (store_of self.now) key block }
        requires within { i < 128 }
        ensures { (key : Key) → FirstBlock (store_of self.now) key block → WordIs (store_of self.now) key i result }
    {
        word_of(&self.memory, &[block], i)
    }

    /// Writes word i of the first block of whoever it belongs to.
    pub fn set_word_in(&mut self, block: u32, i: u32, word: u32)
        requires owned { (key : Key) × FirstBlock (store_of self.old) key block }
        requires within { i < 128 }
        ensures writes { (key : Key) → FirstBlock (store_of self.old) key block →
            WritesWord (store_of self.old) (store_of self.new) key i word }
        ensures bytes { (key : Key) → FirstBlock (store_of self.old) key block → KeepsBytes self.old self.new key (λ j. j ≢ i) }
    {
        set_word_of(&mut self.memory, &[block], i, word);
    }

    /// Constant i.
    pub fn global(&self, i: u32) -> u32
        requires { IsSome ((store_of self.now).global i) }
        ensures { (store_of self.now).global i ≡ Some result }
    {
        self.memory.word(global_word(i))
    }

    /// Writes constant i.
    pub fn set_global(&mut self, i: u32, word: u32)
        requires { IsSome ((store_of self.old).global i) }
        ensures { WritesGlobal (store_of self.old) (store_of self.new) i word }
    {
        self.memory.set_word(global_word(i), word);
    }
}
