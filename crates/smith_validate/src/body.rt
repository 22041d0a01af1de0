//! A component, a component type or an instance type as far as it was judged.

ghost use Rattle.std.specs.Prelude.{◌≡◌, ◌+◌, ◌++◌, ◌<◌, ◌&&◌, not, ℕ, List, false, true, IfErr, OnOk};
ghost use Rattle.std.specs.Prelude.{option_to_list};
ghost use Rattle.std.specs.List.{AllByRecursion};
ghost use Rattle.smith_tree.specs.Demands.{Keeps};
ghost use Rattle.smith_tree.specs.Facts.{Id};
ghost use Rattle.smith_tree.specs.Sizes.{size_bound};
ghost use Rattle.smith_validate.specs.Bodies.{IsEmpty, IsFresh, IsOther};
ghost use Rattle.smith_validate.specs.Deferring.{AreSettled, IsMetBy};
ghost use Rattle.smith_validate.specs.Exposing.{number_of, outside_at};
ghost use Rattle.smith_validate.specs.Instances.{Surface, IsTable};
ghost use Rattle.smith_validate.specs.Judges.{IsUnnamed, Judges};
ghost use Rattle.smith_syntax.specs.Sizes.{capped};
ghost use Rattle.smith_validate.specs.Marks.{both, closed_needs, is_below, not_below};
ghost use Rattle.smith_validate.specs.declared.body.Role.TheVariants.{Exporting, Names};
ghost use Rattle.smith_validate.specs.declared.error.Stop.TheVariants.{OutOfMemory};

use crate::counts::Counts;
use crate::error::{Demand, Stop};
use crate::exposure::{Exposure, refers_outside};
use crate::facts::Needs;
use crate::instances::{InstanceType, Use};
use smith_syntax::{SIZE_BOUND, size_sum};
use std::alloc::Global;

/// What is named in a component or a component type, for its imports and for its exports.
#[derive(Drop)]
pub(crate) struct Sets {
    pub(crate) imported: Exposure,
    pub(crate) exported: Exposure,
}

impl Sets {
    pub(crate) fn new(alloc: Global) -> Sets
        ensures { IsFresh true (Names result) }
    {
        Sets {
            imported: Exposure::new(alloc),
            exported: Exposure::new(alloc),
        }
    }
}

/// What an import or an export is of, as far as it has to be named.
#[derive(Clone, Copy, Debug)]
pub(crate) struct Extern {
    /// What it refers to, beside what types of instances name.
    pub(crate) refers: Needs,
    /// What it is of a type of instances.
    pub(crate) used: Option<Use>,
}

/// What an instance type exports so far.
#[derive(Drop)]
pub(crate) struct Exported {
    /// Whether there is an export of a function, a type or an instance.
    pub(crate) any: bool,
    pub(crate) refers: Needs,
    pub(crate) uses: Vec<Use>,
    /// Whether all that is used refers only to types that no type of instances names.
    pub(crate) refers_outside: bool,
    /// Whether each export refers only to such types and to what the exports before it name.
    pub(crate) names_first: bool,
    /// What instances among the exports name.
    pub(crate) named: Exposure,
}

impl Exported {
    pub(crate) fn new(alloc: Global) -> Exported
        ensures { IsFresh false (Exporting result) }
    {
        Exported {
            any: false,
            refers: Needs::nothing(),
            uses: Vec::new(alloc),
            refers_outside: true,
            names_first: true,
            named: Exposure::new(alloc),
        }
    }

    /// Adds an export of a function, of a type that is equal to one, or of an instance.
    pub(crate) fn export(&mut self, all: &[InstanceType], what: Extern) -> Result<(), Stop>
        ensures outward { OnOk result (self.new.refers_outside ≡ true → (self.old.refers_outside ≡ true)
            × AllByRecursion (λ u. outside_at all.now (number_of u) ≡ true) (option_to_list what.used)) }
        ensures first { (table : List Surface) → IsTable all.now table
            → OnOk result ((named : List Id) → self.new.names_first ≡ true → (self.old.names_first ≡ true)
            × (AreSettled table self.old.named named → IsMetBy table what.used self.new.named named)) }
        ensures other { IfErr result IsOther }
        ensures memory { IfErr result (λ e. e ≡ OutOfMemory) }
        ensures any { OnOk result (self.new.any ≡ true) }
        ensures refers { OnOk result (self.new.refers ≡ both self.old.refers what.refers) }
        ensures uses { OnOk result (self.new.uses.items ≡ self.old.uses.items ++ option_to_list what.used) }
    {
        self.any = true;
        self.refers = self.refers.with(what.refers);
        if let Some(used) = what.used {
            self.uses.push(used)?;
            self.refers_outside = self.refers_outside && refers_outside(all, used.of());
            if self.names_first {
                self.names_first = self.named.meets_at_once(all, used)?;
            }
        }
        Ok(())
    }

    /// The type of instances, in a scope with that many around it: what its exports refer to beside what it names, and
    /// the rest of it.
    pub(crate) fn close(self, depth: usize) -> (Needs, InstanceType)
        ensures refers { result.0 ≡ closed_needs self.refers depth }
        ensures uses { result.1.uses.items ≡ self.uses.items }
        ensures own { result.1.refers_to_own ≡ is_below self.refers.innermost depth }
        ensures outward { result.1.refers_outside
            ≡ (self.refers_outside && not (is_below self.refers.innermost depth)) }
        ensures first { result.1.names_first ≡ self.names_first }
    {
        let Needs {
            outermost,
            innermost,
        } = self.refers;
        let refers_to_own = is_below(innermost, depth);
        let ty = InstanceType {
            uses: self.uses,
            refers_to_own,
            refers_outside: self.refers_outside && !refers_to_own,
            names_first: self.names_first,
        };
        let refers = Needs {
            outermost: outermost.outside(depth),
            innermost: not_below(innermost, depth),
        };
        (refers, ty)
    }
}

// Whether there is a level, deeper than that one.
fn is_below(level: Option<usize>, depth: usize) -> bool
    ensures { result ≡ is_below level depth }
{
    match level {
        Some(level) => depth < level,
        None => false,
    }
}

// The level, or that one if it is deeper.
fn not_below(level: Option<usize>, depth: usize) -> Option<usize>
    ensures { result ≡ not_below level depth }
{
    match level {
        Some(level) => Some(level.min(depth)),
        None => None,
    }
}

/// What is kept of the imports and exports: in a component or a component type what they name, in an instance type what
/// they export.
#[derive(Drop)]
pub(crate) enum Role {
    Names(Sets),
    Exporting(Exported),
}

/// The effective size so far, how many entries there are, and what is kept of imports and exports.
#[derive(Drop)]
pub(crate) struct Body {
    pub(crate) size: u32,
    pub(crate) counts: Counts,
    pub(crate) role: Role,
}

impl Body {
    pub(crate) fn new(role: Role) -> Body
        ensures empty { IsEmpty result }
        ensures role { result.role ≡ role }
    {
        Body {
            size: 1,
            counts: Counts::new(),
            role,
        }
    }

    /// Adds the size of an import or an export.
    pub(crate) fn add_size(&mut self, size: u32) -> Result<(), Stop>
        ensures bound { IfErr result IsUnnamed }
        ensures judged { (n : ℕ) → size ≡ capped n → Judges result
            (λ d. Keeps d.sizes (self.old.size + n < size_bound)) }
        ensures size { (n : ℕ) → size ≡ capped n → OnOk result (self.new.size ≡ self.old.size + n) }
        ensures counts { self.new.counts ≡ self.old.counts }
        ensures role { self.new.role ≡ self.old.role }
    {
        let size = size_sum(self.size, size);
        if size >= SIZE_BOUND {
            return Err(Stop::Invalid(Demand::Size));
        }
        self.size = size;
        Ok(())
    }
}
