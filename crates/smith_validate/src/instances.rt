//! What instances export that refers to types which other instances name.

ghost use Rattle.std.specs.Prelude.{◌≡◌, ◌∷◌, ◌+◌, ◌<◌, [], List, length, option_map, reverse, slice_get, true};
ghost use Rattle.std.specs.Prelude.{false, IfOk, OnOk};
ghost use Rattle.smith_tree.specs.Facts.{Id};
ghost use Rattle.smith_validate.specs.Deferring.{Gains};
ghost use Rattle.smith_validate.specs.Exact.{IsExposed, is_exposed};
ghost use Rattle.smith_validate.specs.Exposing.{IsGoal, IsMet, IsOnTheWay, IsPending, IsSettled, Meets, is_settled};
ghost use Rattle.smith_validate.specs.Exposing.{named_after, number_of, refers_own, use_in, uses_of};
ghost use Rattle.smith_validate.specs.Instances.{Surface, IsTable, outside_of};
ghost use Rattle.smith_validate.specs.Marks.{Within};
ghost use Rattle.smith_validate.specs.Opening.{AreHalf, IsFound, IsMidway, IsOpenable, IsStep};
ghost use Rattle.smith_validate.specs.Tables.{AreDistinct, AreExact};

use crate::numbers::Numbers;
use std::alloc::{AllocError, Global};

/// What an instance type exports of another type of instances: an instance of it, or a type that is equal to it.
#[derive(Clone, Copy, Debug)]
pub(crate) enum Use {
    Instance(usize),
    Equal(usize),
}

impl Use {
    /// The number of the type.
    pub(crate) fn of(self) -> usize
        ensures { result ≡ number_of self }
    {
        match self {
            Use::Instance(number) | Use::Equal(number) => number,
        }
    }

    // What has to hold of another use if this one does.
    fn within(self, other: Use) -> Use
        ensures { result ≡ use_in self other }
    {
        match self {
            Use::Instance(_) => other,
            Use::Equal(_) => Use::Equal(other.of()),
        }
    }
}

/// A type of instances.
#[derive(Drop)]
pub(crate) struct InstanceType {
    /// What it exports of others, in order.
    pub(crate) uses: Vec<Use>,
    /// Whether its exports refer to types that it names.
    pub(crate) refers_to_own: bool,
    /// Whether they refer only to types that no type of instances names.
    pub(crate) refers_outside: bool,
    /// Whether each refers only to such types and to what the exports before it name.
    pub(crate) names_first: bool,
}

/// The types of instances whose types are named, since an instance was imported or exported; and the ones beside them
/// that refer to no other types of instances than these.
#[derive(Drop)]
pub(crate) struct Exposed {
    named: Numbers,
    settled: Numbers,
}

impl Exposed {
    pub(crate) fn new(alloc: Global) -> Exposed
        ensures settled { (table : List Surface) (named : List Id) → IsSettled table result named }
        ensures exposed { (table : List Surface) → IsExposed table result [] [] }
    {
        Exposed {
            named: Numbers::new(alloc),
            settled: Numbers::new(alloc),
        }
    }

    /// Whether a type of instances is named.
    pub(crate) fn is_named(&self, number: usize) -> bool
        ensures { result ≡ is_exposed self.now number }
    {
        self.named.contains(number)
    }

    /// Names a type of instances. Says whether it was not named before.
    pub(crate) fn name(&mut self, number: usize) -> Result<bool, AllocError>
        ensures gains { OnOk result (Gains self.old self.new number) }
        ensures was { IfOk result (λ is. is ≡ false → is_exposed self.old number ≡ true) }
    {
        self.named.insert(number)
    }

    /// Whether it refers only to named types.
    pub(crate) fn is_settled(&self, number: usize) -> bool
        ensures { result ≡ is_settled self.now number }
    {
        if self.named.contains(number) {
            true
        } else {
            self.settled.contains(number)
        }
    }

    /// Whether what a use is of refers only to named types, if all is named that its scopes name. What an instance
    /// exports is named from then on.
    pub(crate) fn meets(
        &mut self,
        alloc: Global,
        all: &[InstanceType],
        used: Use,
    ) -> Result<bool, AllocError>
        ensures met { (table : List Surface) (named : List Id) → IsTable all.now table → IsSettled table self.old named
            → number_of used < length table → Within named (outside_of table (number_of used))
            → IfOk result (λ is. is ≡ true → Meets table used (IsSettled table self.new) named) }
        ensures exact { (table : List Surface) (named : List Id) → AreExact all.now table → AreDistinct table
            → IsExposed table self.old [] named → IsOpenable table self.old [] used
            → IfOk result (IsFound table used (IsExposed table self.new []) named) }
    {
        let mut rest = Vec::new(alloc);
        if !self.opens(all, &mut rest, used)? {
            return Ok(false);
        }
        for _ in 0..u64::MAX {
            let Some((used, done)) = rest.pop() else {
                return Ok(true);
            };
            if !self.goes_on(all, &mut rest, used, done)? {
                return Ok(false);
            }
        }
        Err(AllocError)
    }

    // Opens a use, unless it is settled or cannot be.
    fn opens(
        &self,
        all: &[InstanceType],
        rest: &mut Vec<(Use, usize)>,
        used: Use,
    ) -> Result<bool, AllocError>
        ensures met { (table : List Surface) (named : List Id) (last : Use) (before : List Id) → IsTable all.now table
            → IsSettled table self.now named → number_of used < length table
            → Within named (outside_of table (number_of used))
            → (IsMet table used named → IsPending table all.now (IsGoal table last before) (reverse rest.old.items)
            (named_after table used named)) → IfOk result (λ is. is ≡ true
            → IsOnTheWay table all.now last before self.now (reverse rest.new.items)) }
        ensures exact { (table : List Surface) (named : List Id) (last : Use) (before : List Id)
            → AreExact all.now table → IsExposed table self.now (reverse rest.old.items) named
            → IsOpenable table self.now (reverse rest.old.items) used
            → (IsMet table last before → IsMet table used named)
            → AreHalf table all.now last before self.now (reverse rest.old.items) (named_after table used named)
            → IfOk result (IsStep table all.now last before self.now (reverse rest.new.items)) }
    {
        match used {
            Use::Instance(number) => {
                if !self.named.contains(number) {
                    rest.push((used, 0))?;
                }
                Ok(true)
            }
            Use::Equal(number) => {
                if self.is_settled(number) {
                    return Ok(true);
                }
                if refers_to_own(all, number) {
                    return Ok(false);
                }
                rest.push((used, 0))?;
                Ok(true)
            }
        }
    }

    // Continues a use, of whose own uses that many are done, or ends it.
    fn goes_on(
        &mut self,
        all: &[InstanceType],
        rest: &mut Vec<(Use, usize)>,
        used: Use,
        done: usize,
    ) -> Result<bool, AllocError>
        ensures met { (table : List Surface) (last : Use) (before : List Id) → IsTable all.now table
            → IsOnTheWay table all.now last before self.old ((used, done) ∷ reverse rest.old.items)
            → IfOk result (λ is. is ≡ true
            → IsOnTheWay table all.now last before self.new (reverse rest.new.items)) }
        ensures exact { (table : List Surface) (last : Use) (before : List Id) → AreExact all.now table
            → AreDistinct table → IsMidway table all.now last before self.old ((used, done) ∷ reverse rest.old.items)
            → IfOk result (IsStep table all.now last before self.new (reverse rest.new.items)) }
    {
        if let Some((next, more)) = use_at(all, used.of(), done) {
            rest.push((used, more))?;
            return self.opens(all, rest, used.within(next));
        }
        match used {
            Use::Instance(number) => self.named.insert(number)?,
            Use::Equal(number) => self.settled.insert(number)?,
        };
        Ok(true)
    }
}

// Whether the exports of a type of instances refer to types that it names.
fn refers_to_own(all: &[InstanceType], number: usize) -> bool
    ensures { result ≡ refers_own all.now number }
{
    match all.get(number) {
        Some(ty) => ty.refers_to_own,
        None => false,
    }
}

// A use of a type of instances with that index, if there is one, and the index after it.
fn use_at(all: &[InstanceType], number: usize, index: usize) -> Option<(Use, usize)>
    ensures { result ≡ option_map (λ u. (u, index + 1)) (slice_get (uses_of all.now number) index) }
{
    let uses = &all.get(number)?.uses;
    if index < uses.len() {
        Some((uses[index], index + 1))
    } else {
        None
    }
}
