// What the keys of an operator compare of a position's binding.
ghost use Rattle.std.specs.Prelude.{◌≡◌, ◌<◌, IsTrue, IfOk, IfErr, length, map};
ghost use Rattle.std.specs.List.{AllByRecursion};
ghost use Rattle.plan_core.specs.TolledRows.{key_value, key_values, row_node};
ghost use Rattle.plan_core.specs.Valid.{kinds};
ghost use Rattle.lazy_binding.specs.World.{part_value, IsPart};
ghost use Rattle.lazy_binding.specs.Cursors.{has_row};
ghost use Rattle.lazy_binding.specs.Reading.{HasStand, InEach, Tells};
ghost use Rattle.lazy_binding.specs.Keys.{IsNodeKey};
ghost use Rattle.lazy_binding.specs.Parts.{operators, IsFixed};
ghost use Rattle.lxp_core.specs.declared.fault.WalkFault.TheVariants.{OutOfMemory};

use crate::key::{KeyPart, KeyTuple};
use crate::parts::{Growing, Walk};
use crate::position::Position;
use lxp_core::WalkFault;
use mix_tree::Key;
use std::alloc::Global;

impl Walk<'_> {
    /// What one key compares of a position's binding.
    fn part_of(
        &self,
        alloc: Global,
        growing: &Growing,
        at: &Position,
        key: Key,
    ) -> Result<KeyPart, WalkFault>
        requires fixed { IsFixed self.now.fixed.now }
        requires op { self.now.op < length (operators self.now.fixed.now) }
        requires cursor { HasStand growing.now self.now at.now }
        requires row { IsTrue (has_row at.now) }
        requires key { IsNodeKey (kinds (operators self.now.fixed.now) self.now.op) key }
        ensures err { IfErr result (λ e. e ≡ OutOfMemory) }
        ensures part { IfOk result (λ p. InEach growing.now self.now at.now (λ w. IsPart w p)) }
        ensures value { IfOk result (λ p. Tells growing.now self.now at.now (λ w docs row. part_value w p ≡ key_value docs (row_node row) key)) }
    {
        match key {
            Key::Node(v) => {
                let (source, spot) = self.node_of(at, v);
                Ok(KeyPart::Node(source, spot))
            }
            Key::LabelOf(v) => {
                let label = self.label_of(growing, at, v).copy(alloc)?;
                Ok(KeyPart::Label(label))
            }
        }
    }

    /// What keys compare of a position's binding.
    pub fn key_of(
        &self,
        alloc: Global,
        growing: &Growing,
        at: &Position,
        keys: &[Key],
    ) -> Result<KeyTuple, WalkFault>
        requires fixed { IsFixed self.now.fixed.now }
        requires op { self.now.op < length (operators self.now.fixed.now) }
        requires cursor { HasStand growing.now self.now at.now }
        requires row { IsTrue (has_row at.now) }
        requires keys { AllByRecursion (IsNodeKey (kinds (operators self.now.fixed.now) self.now.op)) keys.now }
        ensures err { IfErr result (λ e. e ≡ OutOfMemory) }
        ensures parts { IfOk result (λ key. InEach growing.now self.now at.now (λ w. AllByRecursion (IsPart w) key.items)) }
        ensures value { let c = at.now in
            IfOk result (λ key. Tells growing.now self.now c (λ w docs row. map (part_value w) key.items ≡ key_values docs keys.now row)) }
    {
        let mut parts = KeyTuple::new(alloc);
        for key in keys {
            let part = self.part_of(alloc, growing, at, *key)?;
            parts.push(part)?;
        }
        Ok(parts)
    }
}
