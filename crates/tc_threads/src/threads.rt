//! Threads by name.
ghost use Rattle.std.specs.Prelude.{◌≡◌, ◌+◌, ◌<◌, ◌^◌, length, IfOk, IfSome, OnOk, OnErr, option_map, Some, None, IsSomeAnd, true, false, pos};
ghost use Rattle.std.specs.FinMap as map;
ghost use Rattle.std.specs.List.{All};
ghost use Rattle.std.specs.Option.{option_map_or};
ghost use Rattle.tc_base.specs.Names.{main, child};
ghost use Rattle.tc_code.specs.Code as flat;
ghost use Rattle.tc_code.specs.Step.{local_after, step_in_place};
ghost use Rattle.tc_threads.specs.CanDo.{CanAdvance, CanDo, is_branch};
ghost use Rattle.tc_threads.specs.Effects.{DrainsTo, MayHave, MayRefuse, affected};

use crate::effect::Effect;
use crate::names::ThreadNames;
use crate::thread::Thread;
use std::alloc::{AllocError, Global};
use std::collections::{BTreeMap, btree_map};
use std::marker::Model;
use store_buffers::MemoryModel;
use tc_base::ThreadName;
use tc_code::Instr;

/// Threads by name, with the list of their names.
#[derive(Drop)]
#[derive_where(Debug)]
pub struct Threads<M: MemoryModel> {
    by_name: BTreeMap<ThreadName, Thread<M>>,
    names: ThreadNames,
}

impl<M: MemoryModel> Model for Threads<M> {
    ghost use Rattle.std.specs.Prelude.{◌≡◌};
    ghost use Rattle.std.specs.FinMap as map;
    ghost use Rattle.std.specs.Ordering.{nat_cmp};
    ghost use Rattle.std.specs.Cmp.Lexicographic.{slice_cmp};
    ghost use Rattle.std.specs.BTreeMap.{keys, IsOrdered};
    ghost use Rattle.tc_base.specs.Names.{ByName};
    ghost use Rattle.tc_base.specs.States as spec;
    ghost use Rattle.tc_base.specs.helpers.Codes.{coded_name, coded_thread};

    ghost Value = { ByName (spec.Thread M.Buffer) };

    ghost coded = { map.code coded_name (coded_thread M.Buffer.code) };

    ghost view = { λ a. map.from_entries a.by_name.entries };

    ghost invariant = { λ a. (a.names ≡ keys a.by_name) × IsOrdered (slice_cmp nat_cmp) a.by_name };
}

impl<M: MemoryModel> Threads<M> {
    /// The threads at the start of a run: main alone.
    pub fn of_main(alloc: Global, thread: Thread<M>) -> Result<Threads<M>, AllocError>
        ensures { IfOk result (λ threads. threads ≡ map.insert map.empty main thread) }
    {
        let names = ThreadNames::of_main(alloc)?;
        let mut by_name = BTreeMap::new(alloc);
        by_name.insert(ThreadName::main(alloc), thread)?;
        Ok(Threads { by_name, names })
    }

    /// The names, in order.
    pub fn names(&self) -> &ThreadNames
        ensures { result.now ≡ map.keys self.now }
    {
        &self.names
    }

    /// The named thread, if it exists.
    pub fn get(&self, name: &ThreadName) -> Option<&Thread<M>>
        ensures { option_map (λ t. t.now) result ≡ map.get self.now name.now }
    {
        self.by_name.get(name)
    }

    /// The threads with their names, in order.
    pub fn iter(&self) -> btree_map::Iter<'_, ThreadName, Thread<M>>
        ensures rest { result ≡ map.entries self.now }
        ensures found { All (λ e. map.get self.now e.0 ≡ Some e.1) result }
    {
        self.by_name.iter()
    }

    /// Does a thread's instruction, which doesn't fail, with this effect.
    pub fn advance(
        &mut self,
        name: &ThreadName,
        instr: &Instr,
        effect: Effect,
    ) -> Result<(), AllocError>
        requires can { CanAdvance self.old name.now instr.now }
        requires may { MayHave M.ops instr.now effect }
        ensures ok { OnOk result (IfSome (map.get self.old name.now)
            (λ t. self.new ≡ map.insert self.old name.now (affected M.ops t instr.now effect))) }
        ensures err { OnErr result (self.new ≡ self.old) }
        ensures only { OnErr result (MayRefuse instr.now effect) }
    {
        match self.by_name.get_mut(name) {
            Some(thread) => thread.advance(instr, effect),
            None => Ok(()),
        }
    }

    /// Adds a thread.
    pub fn add(&mut self, name: ThreadName, thread: Thread<M>) -> Result<(), AllocError>
        requires { map.get self.old name ≡ None }
        ensures ok { OnOk result (self.new ≡ map.insert self.old name thread) }
        ensures err { OnErr result (self.new ≡ self.old) }
    {
        let at = self.names.insert(name.clone()?)?;
        match self.by_name.insert(name, thread) {
            Ok(_) => Ok(()),
            Err(_) => {
                self.names.remove(at);
                Err(AllocError)
            }
        }
    }

    /// Creates a child of a thread, by an instruction that isn't a branch.
    pub fn create(
        &mut self,
        name: &ThreadName,
        instr: &Instr,
        child: ThreadName,
        thread: Thread<M>,
    ) -> Result<(), AllocError>
        requires can { IsSomeAnd (map.get self.old name.now)
            (λ t. (code : flat.Code) × CanDo code t.local instr.now) }
        requires is_new { map.get self.old child ≡ None }
        requires no_branch { is_branch instr.now ≡ false }
        ensures ok { OnOk result (IfSome (map.get self.old name.now)
            (λ t. self.new
            ≡ map.insert (map.insert self.old name.now (record t { local = local_after t.local instr.now (pos 0) })) child thread)) }
        ensures err { OnErr result (self.new ≡ self.old) }
    {
        self.add(child, thread)?;
        self.advance(name, instr, Effect::Takes(0))
    }

    /// Whether a thread's child with this number has exited.
    pub fn child_has_exited(&self, parent: &ThreadName, number: u32) -> bool
        ensures { result ≡ option_map_or (λ t. t.local.has_exited) (map.get self.now (child parent.now number)) false }
    {
        for (name, thread) in &self.by_name {
            if name.is_child_of(parent, number) {
                return thread.local().has_exited();
            }
        }
        false
    }

    /// Counts the failing step of a thread, which stays at its place.
    pub fn stop(&mut self, name: &ThreadName)
        requires { IfSome (map.get self.old name.now) (λ t. t.local.steps + 1 < 2 ^ 32) }
        ensures { IfSome (map.get self.old name.now)
            (λ t. self.new ≡ map.insert self.old name.now (record t { local = step_in_place t.local })) }
    {
        if let Some(thread) = self.by_name.get_mut(name) {
            thread.count_step();
        }
    }

    /// Removes the store that a thread drains by this form, and returns its cell and value.
    pub fn drain(&mut self, name: &ThreadName, form: Option<u32>) -> (u32, i32)
        requires { IsSomeAnd (map.get self.old name.now) (λ t. M.ops.may_drain t.buffer form ≡ true) }
        ensures { IfSome (map.get self.old name.now) (λ t. DrainsTo M.ops self.old name.now t form result self.new) }
    {
        let Some(thread) = self.by_name.get_mut(name) else {
            unreachable!()
        };
        thread.drain(form)
    }
}
