//! What instances name, of which some is looked at only if it is asked for.

ghost use Rattle.std.specs.Prelude.{◌≡◌, ◌∷◌, ◌<◌, [], ℕ, List, length, true, false, IfOk, OnOk};
ghost use Rattle.smith_tree.specs.Facts.{Id};
ghost use Rattle.smith_validate.specs.Deferring.{Adds, AreSettled, IsExposure};
ghost use Rattle.smith_validate.specs.Exact.{IsExposed, is_exposed};
ghost use Rattle.smith_validate.specs.Exposing.{Meets, first_at, named_after, number_of, outside_at, uses_of};
ghost use Rattle.smith_validate.specs.Instances.{Surface, IsTable, outside_of};
ghost use Rattle.smith_validate.specs.Marks.{Within};
ghost use Rattle.smith_validate.specs.Opening.{IsFound, IsOpenable};
ghost use Rattle.smith_validate.specs.Tables.{AreDistinct, AreExact};
ghost use Rattle.smith_validate.specs.declared.instances.Use.TheVariants.{Instance};

use crate::instances::{Exposed, InstanceType, Use};
use std::alloc::{AllocError, Global};

/// The types of instances whose types are named. What some of them export of others is named too, but is looked at only
/// if a use asks for it.
#[derive(Drop)]
pub(crate) struct Exposure {
    pub(crate) exposed: Exposed,
    pub(crate) later: Vec<usize>,
}

impl Exposure {
    pub(crate) fn new(alloc: Global) -> Exposure
        ensures settled { (table : List Surface) (named : List Id) → AreSettled table result named }
        ensures exposed { (table : List Surface) → IsExposure table result [] }
    {
        Exposure {
            exposed: Exposed::new(alloc),
            later: Vec::new(alloc),
        }
    }

    /// Whether what a use is of refers only to named types, if all is named that its scopes name. What an instance
    /// exports is named from then on.
    pub(crate) fn meets(
        &mut self,
        alloc: Global,
        all: &[InstanceType],
        used: Use,
    ) -> Result<bool, AllocError>
        ensures met { (table : List Surface) (named : List Id) → IsTable all.now table
            → AreSettled table self.old named → number_of used < length table
            → Within named (outside_of table (number_of used))
            → IfOk result (λ is. is ≡ true → Meets table used (AreSettled table self.new) named) }
        ensures exact { (table : List Surface) (named : List Id) → AreExact all.now table → AreDistinct table
            → IsExposure table self.old named → IsOpenable table self.old.exposed [] used
            → IfOk result (IsFound table used (IsExposure table self.new) named) }
    {
        if self.meets_at_once(all, used)? {
            return Ok(true);
        }
        self.finish(all)?;
        self.exposed.meets(alloc, all, used)
    }

    /// Whether that is known from what is kept of the type, without a look at what it exports.
    pub(crate) fn meets_at_once(
        &mut self,
        all: &[InstanceType],
        used: Use,
    ) -> Result<bool, AllocError>
        ensures met { (table : List Surface) (named : List Id) → IsTable all.now table
            → AreSettled table self.old named → number_of used < length table
            → Within named (outside_of table (number_of used))
            → IfOk result (λ is. is ≡ true → Meets table used (AreSettled table self.new) named) }
        ensures exact { (table : List Surface) (named : List Id) → IsExposure table self.old named
            → IsOpenable table self.old.exposed [] used
            → IfOk result (λ is. is ≡ true → IsExposure table self.new (named_after table used named)) }
        ensures same { IfOk result (λ is. is ≡ false → self.new ≡ self.old) }
    {
        match used {
            Use::Instance(number) => {
                if self.exposed.is_named(number) {
                    return Ok(true);
                }
                if !names_first(all, number) {
                    return Ok(false);
                }
                self.add(number)?;
                Ok(true)
            }
            Use::Equal(number) => {
                if self.exposed.is_settled(number) {
                    return Ok(true);
                }
                Ok(refers_outside(all, number))
            }
        }
    }

    // Names a type of instances, unless it is named.
    fn add(&mut self, number: usize) -> Result<(), AllocError>
        ensures { OnOk result (Adds self.old self.new (Instance number ∷ [])) }
    {
        if self.exposed.name(number)? {
            self.later.push(number)?;
        }
        Ok(())
    }

    // Names all that instances of the named types name.
    fn finish(&mut self, all: &[InstanceType]) -> Result<(), AllocError>
        ensures settled { (table : List Surface) (named : List Id) → IsTable all.now table
            → AreSettled table self.old named → OnOk result (AreSettled table self.new named) }
        ensures exposed { (table : List Surface) (named : List Id) → AreExact all.now table → AreDistinct table
            → IsExposure table self.old named → OnOk result (IsExposed table self.new.exposed [] named) }
        ensures later { OnOk result (self.new.later.items ≡ []) }
        ensures more { OnOk result
            ((n : ℕ) → is_exposed self.old.exposed n ≡ true → is_exposed self.new.exposed n ≡ true) }
    {
        for _ in 0..u64::MAX {
            let Some(number) = self.later.pop() else {
                return Ok(());
            };
            self.add_uses(all, number)?;
        }
        Err(AllocError)
    }

    // Names the types of instances of which an instance of that one exports an instance.
    fn add_uses(&mut self, all: &[InstanceType], number: usize) -> Result<(), AllocError>
        ensures { OnOk result (Adds self.old self.new (uses_of all.now number)) }
    {
        match all.get(number) {
            Some(ty) => self.add_all(&ty.uses),
            None => Ok(()),
        }
    }

    // Names the types that uses are instances of.
    fn add_all(&mut self, uses: &[Use]) -> Result<(), AllocError>
        ensures { OnOk result (Adds self.old self.new uses.now) }
    {
        for used in uses {
            self.add_use(used)?;
        }
        Ok(())
    }

    // Names the type that a use is an instance of.
    fn add_use(&mut self, used: &Use) -> Result<(), AllocError>
        ensures { OnOk result (Adds self.old self.new (used.now ∷ [])) }
    {
        match *used {
            Use::Instance(number) => self.add(number),
            Use::Equal(_) => Ok(()),
        }
    }
}

/// Whether the exports of a type of instances refer only to types that no type of instances names.
pub(crate) fn refers_outside(all: &[InstanceType], number: usize) -> bool
    ensures { result ≡ outside_at all.now number }
{
    match all.get(number) {
        Some(ty) => ty.refers_outside,
        None => false,
    }
}

// Whether a type of instances names what its exports refer to before they do.
fn names_first(all: &[InstanceType], number: usize) -> bool
    ensures { result ≡ first_at all.now number }
{
    match all.get(number) {
        Some(ty) => ty.names_first,
        None => false,
    }
}
