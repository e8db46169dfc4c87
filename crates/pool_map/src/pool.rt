//! The pool: root words, and a map from slots to objects.

ghost use Rattle.std.specs.Prelude.{◌≡◌, [], ◌∷◌, ◌++◌, OnOk, OnErr, IfOk, ◌<◌, ◌≤◌, length};
ghost use Rattle.std.specs.Prelude.{Option, None, Some, IsSome, option_map, replicate};
ghost use Rattle.std.specs.Bool.{Decides};
ghost use Rattle.pool_map.specs.PoolMap.{empty_pool, IsSlot, object_at, least_free, new, free};
ghost use Rattle.pool_map.specs.PoolMap.{HasField, read, write, read_root, write_root};

use crate::object::{Object, copied, zeros};
use nvm_base::Words;
use std::alloc::{AllocError, Global};
use std::marker::Model;

/// A pool. Slots are numbered from 1, fields and root words from 0.
#[derive(Drop)]
pub struct Pool {
    root: Words,
    slots: Vec<Option<Object>>,
}

impl Model for Pool {
    ghost use Rattle.pool_map.specs.PoolMap.{PoolMap};

    ghost Value = { PoolMap };

    ghost view = { λ p. record { root = p.root; slots = p.slots.items } };
}

impl Pool {
    /// A pool whose root words are all 0 and whose slots are all free.
    pub fn empty(alloc: Global, root_words: u64, slots: u64) -> Result<Pool, AllocError>
        ensures { IfOk result (λ pool. pool ≡ empty_pool root_words slots) }
    {
        let root = zeros(alloc, root_words)?;
        let slots = free_slots(alloc, slots)?;
        Ok(Pool { root, slots })
    }

    /// A pool with these root words and no slot yet. It takes no memory.
    pub fn of_root(alloc: Global, root: Words) -> Pool
        ensures { result ≡ record { root = root; slots = [] } }
    {
        Pool {
            root,
            slots: Vec::new(alloc),
        }
    }

    /// Appends one slot. After an error the pool is as before.
    pub fn push_slot(&mut self, slot: Option<Object>) -> Result<(), AllocError>
        ensures ok { OnOk result (self.new ≡ record {
          root = self.old.root;
          slots = self.old.slots
              ++ slot ∷ [];
        }) }
        ensures err { OnErr result (self.new ≡ self.old) }
    {
        self.slots.push(slot)?;
        Ok(())
    }

    /// A copy of the pool.
    pub fn copy(&self) -> Result<Pool, AllocError>
        ensures { IfOk result (λ pool. pool ≡ self.now) }
    {
        let alloc = *self.slots.allocator();
        let root = copied(alloc, &self.root)?;
        let slots = copied_slots(alloc, &self.slots)?;
        Ok(Pool { root, slots })
    }

    /// The least slot that has no object, if there is one. It takes no memory.
    pub fn least_free(&self) -> Option<u64>
        ensures { result ≡ least_free self.now }
    {
        let mut slot = 1;
        for object in &self.slots {
            if object.is_none() {
                return Some(slot);
            }
            slot += 1;
        }
        None
    }

    /// The root words.
    pub(crate) fn root_words(&self) -> &[i64]
        ensures { result.now ≡ self.now.root }
    {
        self.root.as_slice()
    }

    /// The slots, from slot 1 on.
    pub(crate) fn slots(&self) -> &[Option<Object>]
        ensures { result.now ≡ self.now.slots }
    {
        &self.slots
    }

    /// The object in a slot; any number may be asked for.
    fn object(&self, slot: u64) -> Option<&Object>
        ensures { option_map (λ object. object.now) result ≡ object_at self.now slot }
    {
        if slot == 0 || slot > self.slots.len() as u64 {
            return None;
        }
        self.slots[(slot - 1) as usize].as_ref()
    }

    /// The kind of the object in a slot, or `None` if there is none; any number may be asked for.
    /// It takes no memory.
    pub fn kind(&self, slot: u64) -> Option<u32>
        ensures { result ≡ option_map (λ object. object.kind) (object_at self.now slot) }
    {
        match self.object(slot) {
            Some(object) => Some(object.kind),
            None => None,
        }
    }

    /// Puts an object into a free slot, with words that are all 0. After an error the pool is as
    /// before.
    pub fn new_object(&mut self, slot: u64, kind: u32, words: u64) -> Result<(), AllocError>
        requires slot { IsSlot self.old slot }
        requires free { object_at self.old slot ≡ None }
        ensures ok { OnOk result (self.new ≡ new self.old slot kind words) }
        ensures err { OnErr result (self.new ≡ self.old) }
    {
        let fields = zeros(*self.slots.allocator(), words)?;
        self.slots[(slot - 1) as usize] = Some(Object { kind, fields });
        Ok(())
    }

    /// Takes the object out of a slot. It takes no memory.
    pub fn free(&mut self, slot: u64)
        requires { IsSome (object_at self.old slot) }
        ensures { self.new ≡ free self.old slot }
    {
        self.slots[(slot - 1) as usize] = None;
    }

    /// A field word of the object in a slot. It takes no memory.
    pub fn get(&self, slot: u64, field: u64) -> i64
        requires { HasField self.now slot field }
        ensures { result ≡ read self.now slot field }
    {
        match self.object(slot) {
            Some(object) => object.fields.as_slice()[field as usize],
            None => unreachable!(),
        }
    }

    /// Writes a field word of the object in a slot. It takes no memory.
    pub fn set(&mut self, slot: u64, field: u64, value: i64)
        requires { HasField self.old slot field }
        ensures { self.new ≡ write self.old slot field value }
    {
        match &mut self.slots[(slot - 1) as usize] {
            Some(object) => object.fields.set(field as usize, value),
            None => unreachable!(),
        }
    }

    /// Whether the object in a slot has this field word; any numbers may be asked for. It takes no
    /// memory.
    pub fn has_field(&self, slot: u64, field: u64) -> bool
        ensures { Decides result (HasField self.now slot field) }
    {
        match self.object(slot) {
            Some(object) => field < object.fields.as_slice().len() as u64,
            None => false,
        }
    }

    /// Whether the pool has this root word. It takes no memory.
    pub fn has_root_word(&self, word: u64) -> bool
        ensures { Decides result (word < length self.now.root) }
    {
        word < self.root.as_slice().len() as u64
    }

    /// A root word. It takes no memory.
    pub fn root_get(&self, word: u64) -> i64
        requires { word < length self.now.root }
        ensures { result ≡ read_root self.now word }
    {
        self.root.as_slice()[word as usize]
    }

    /// Writes a root word. It takes no memory.
    pub fn root_set(&mut self, word: u64, value: i64)
        requires { word < length self.old.root }
        ensures { self.new ≡ write_root self.old word value }
    {
        self.root.set(word as usize, value);
    }
}

/// Slots without an object.
fn free_slots(alloc: Global, slots: u64) -> Result<Vec<Option<Object>>, AllocError>
    ensures { IfOk result (λ all. all.items ≡ replicate slots None) }
{
    let mut all = Vec::new(alloc);
    for _ in 0..slots {
        all.push(None)?;
    }
    Ok(all)
}

/// A copy of the slots.
fn copied_slots(alloc: Global, slots: &[Option<Object>]) -> Result<Vec<Option<Object>>, AllocError>
    ensures { IfOk result (λ all. all.items ≡ slots.now) }
{
    let mut all = Vec::new(alloc);
    for slot in slots {
        all.push(copied_slot(alloc, slot)?)?;
    }
    Ok(all)
}

/// A copy of the slot.
fn copied_slot(alloc: Global, slot: &Option<Object>) -> Result<Option<Object>, AllocError>
    ensures { IfOk result (λ same. same ≡ slot.now) }
{
    match slot {
        Some(object) => {
            let fields = copied(alloc, &object.fields)?;
            Ok(Some(Object {
                kind: object.kind,
                fields,
            }))
        }
        None => Ok(None),
    }
}
