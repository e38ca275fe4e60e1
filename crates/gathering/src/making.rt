ghost use Rattle.std.specs.Prelude.{◌≡◌, ◌+◌, ◌<◌, ◌≤◌, IfOk, length};
ghost use Rattle.rolls.specs.Rolls.{surface};
ghost use Rattle.gathering.specs.Bounds.{EachNames, Under};
ghost use Rattle.gathering.specs.Rendering.{AllTouching, OnlyTouching};
ghost use Rattle.gathering.specs.Systems.{SystemOf, class_count, instances_of, touching_of};

use crate::building::gathered;
use crate::ground::Ground;
use crate::system::System;
use crate::touching::touching_each;
use classes::{Classes, classes_of};
use planes::{Plane, Space};
use std::alloc::{AllocError, Global};
use systems::Instance;

impl System {
    /// The system of a space: its classes, and over them the instances of every place in and around the
    /// box. Refused only for want of memory.
    pub fn of<S: Space>(heap: Global, space: &S) -> Result<System, AllocError>
        ensures { IfOk result (SystemOf (surface (S.Plane.means space.now) (S.Space.count space.now) (S.Space.tied space.now))) }
    {
        let classes = classes_of(heap, space)?;
        let instances = gathered(heap, &Ground::of(space, &classes))?;
        let touching = touching_each(heap, instances.as_slice(), classes.count())?;
        Ok(System {
            classes,
            instances,
            touching,
        })
    }

    /// The classes of the space: the class of each cell, and what is asked of each class.
    pub fn classes(&self) -> &Classes
        ensures { result.now ≡ self.now.classes }
    {
        &self.classes
    }

    // How many classes there are; the one past the last is nothing.
    pub fn count(&self) -> usize
        ensures value { result ≡ class_count self.now }
        ensures few { result ≤ 4096 }
    {
        self.touching.len()
    }

    // Every instance.
    pub fn instances(&self) -> &[Instance]
        ensures value { result.now ≡ instances_of self.now }
        ensures named { EachNames (class_count self.now + 1) result.now }
    {
        self.instances.as_slice()
    }

    // The numbers of the instances that touch a class; none touch nothing.
    pub fn touching(&self, class: u16) -> &[u16]
        ensures value { result.now ≡ touching_of self.now class }
        ensures within { Under (length (instances_of self.now)) result.now }
        ensures complete { class < class_count self.now → AllTouching (instances_of self.now) class result.now }
        ensures only { OnlyTouching (instances_of self.now) class result.now }
    {
        match self.touching.get(usize::from(class)) {
            Some(numbers) => numbers.as_slice(),
            None => &[],
        }
    }
}
