//! Imports and exports.

ghost use Rattle.std.specs.Prelude.{◌≡◌, ◌∷◌, ◌+◌, ◌++◌, Bool, false, true, List, Some, get_or, length, map, slice_get};
ghost use Rattle.std.specs.Prelude.{IfErr, OnOk, flat_map, option_map, option_to_list};
ghost use Rattle.smith_syntax.specs.Scope.{with_types};
ghost use Rattle.smith_tree.specs.Bodies.{Body as PlainBody, IsSmall, after_export, after_import, exported_facts};
ghost use Rattle.smith_tree.specs.Bodies.{externs_at, module_size_at, reference_size};
ghost use Rattle.smith_tree.specs.Counts.{ValidCounts, with_type_count};
ghost use Rattle.smith_tree.specs.Demands.{Keeps};
ghost use Rattle.smith_tree.specs.Facts.{Extern as PlainExtern, FactScope, Facts as PlainFacts, Id, sizes};
ghost use Rattle.smith_tree.specs.Validates.{RefersTo, exported, imported, names_of};
ghost use Rattle.smith_validate.specs.Bodies.{AreSets, IsBody, IsIn, IsOther, IsRole};
ghost use Rattle.smith_validate.specs.Counted.{counted};
ghost use Rattle.smith_validate.specs.Exact.{AreNamedFor, AreSetsExactly, IsBodyExactly, IsPieceExactly, IsRoleExactly};
ghost use Rattle.smith_validate.specs.Exact.{IsRoleExported};
ghost use Rattle.smith_validate.specs.Externs.{IsAsked, IsAskedFor, IsExtern, extern_of, instance_of, exported_of};
ghost use Rattle.smith_validate.specs.Externs.{kept_extern, kept_instance, with_exports, with_imports};
ghost use Rattle.smith_validate.specs.Instances.{AreKept, Surface, IsTable};
ghost use Rattle.smith_validate.specs.Judges.{IsNamed, IsUnnamed, Judges};
ghost use Rattle.smith_syntax.specs.Sizes.{capped};
ghost use Rattle.smith_validate.specs.Kept.{kept_of, own_in};
ghost use Rattle.smith_validate.specs.Steps.{SameBeside};
ghost use Rattle.smith_validate.specs.Tables.{AreAdded, AreExact};
ghost use Rattle.smith_validate.specs.Usual.{IsUsualImport};
ghost use Rattle.smith_validate.specs.Preceding.{AmongKept, InBody, InBodyExactly, InScopes};

use crate::body::{Body, Extern, Role, Sets};
use crate::counts::Counts;
use crate::error::{Demand, Stop};
use crate::facts::{CoreFacts, Facts};
use crate::instances::{InstanceType, Use};
use crate::known::Known;
use smith_syntax::ComponentTypeRef;
use std::alloc::Global;

// The size of a type with that index.
#[tactic(auto, using(crate::proofs::ScopeSteps::size_found, crate::proofs::ScopeSteps::size_missing))]
fn size_at(known: &Known, index: u32) -> u32
    ensures { (own : FactScope) → own_in known.now ≡ kept_of own
        → result ≡ capped (get_or (sizes own.types) index 0) }
{
    match known.scopes.own.type_at(index) {
        Some(facts) => facts.size,
        None => 0,
    }
}

// The size of the module type with that index.
fn module_size_at(known: &Known, index: u32) -> u32
    ensures { (own : FactScope) → own_in known.now ≡ kept_of own
        → result ≡ capped (module_size_at own.core_types index) }
{
    match known.scopes.own.core_type_at(index) {
        Some(CoreFacts::Module(size)) => size,
        Some(CoreFacts::Func(_)) | None => 0,
    }
}

// The size of what an import or an export is of.
fn size_of_reference(known: &Known, to: ComponentTypeRef) -> u32
    ensures { (own : FactScope) → own_in known.now ≡ kept_of own
        → result ≡ capped (reference_size own.core_types (sizes own.types) to) }
{
    match to {
        ComponentTypeRef::Module(index) => module_size_at(known, index),
        ComponentTypeRef::Func(index)
        | ComponentTypeRef::TypeEq(index)
        | ComponentTypeRef::Component(index)
        | ComponentTypeRef::Instance(index) => size_at(known, index),
    }
}

// What has to be named of what is imported or exported, if anything.
fn extern_at(known: &Known, to: ComponentTypeRef) -> Option<Extern>
    ensures found { (own : FactScope) (outer : List FactScope) (names : List (List Id)) (table : List Surface)
        → AreKept table names known.now.scopes.own.types.items own.types
        → IsExtern table names result (externs_at own outer to) }
    ensures marks { result ≡ extern_of known.now.scopes.own.types.items to }
{
    match to {
        ComponentTypeRef::Func(index) => equal_at(known, index),
        ComponentTypeRef::TypeEq(index) => equal_at(known, index),
        ComponentTypeRef::Instance(index) => instance_at(known, index),
        ComponentTypeRef::Module(_) | ComponentTypeRef::Component(_) => None,
    }
}

// A function of the type with that index, or a type that is equal to it.
#[tactic(auto, using(crate::proofs::Externs::equal_found, crate::proofs::Externs::equal_missing))]
fn equal_at(known: &Known, index: u32) -> Option<Extern>
    ensures marks { result ≡ option_map kept_extern (slice_get known.now.scopes.own.types.items index) }
    ensures found { (types : List PlainFacts) (names : List (List Id)) (table : List Surface) (ids : List Id)
        → AreKept table names known.now.scopes.own.types.items types → IsExtern table names result
        (map (λ f. record { refers = f.refers; names = ids }) (option_to_list (slice_get types index))) }
{
    match known.scopes.own.type_at(index) {
        Some(facts) => Some(equal_extern(facts)),
        None => None,
    }
}

// An instance of the type with that index.
#[tactic(auto, using(crate::proofs::Externs::instance_found, crate::proofs::Externs::instance_missing))]
fn instance_at(known: &Known, index: u32) -> Option<Extern>
    ensures marks { result ≡ instance_of known.now.scopes.own.types.items index }
    ensures found { AmongKept known.now.scopes.own.types.items (λ types names table.
        IsExtern table names result (flat_map (λ f. f.exports) (option_to_list (slice_get types index)))) }
{
    match known.scopes.own.type_at(index) {
        Some(facts) => instance_extern(facts),
        None => None,
    }
}

// An instance of that type.
fn instance_extern(facts: Facts) -> Option<Extern>
    ensures { result ≡ kept_instance facts }
{
    match facts.instance {
        Some(number) => Some(Extern {
            refers: facts.refers,
            used: Some(Use::Instance(number)),
        }),
        None => None,
    }
}

// A function, or a type that is equal to that one.
fn equal_extern(facts: Facts) -> Extern
    ensures { result ≡ kept_extern facts }
{
    let used = match facts.instance {
        Some(number) => Some(Use::Equal(number)),
        None => None,
    };
    Extern {
        refers: facts.refers,
        used,
    }
}

fn check(holds: bool) -> Result<(), Stop>
    ensures other { IfErr result IsOther }
    ensures holds { OnOk result (holds ≡ true) }
    ensures named { IfErr result (λ e. holds ≡ false) }
{
    if holds {
        Ok(())
    } else {
        Err(Stop::Invalid(Demand::Named))
    }
}

impl Sets {
    // Names what an import of a component or a component type names, if it may be imported.
    fn import(&mut self, alloc: Global, all: &[InstanceType], what: Extern) -> Result<(), Stop>
        ensures other { IfErr result IsOther }
        ensures named { (table : List Surface) (names : List (List Id)) (b : PlainBody) (xs : List PlainExtern)
            → IsTable all.now table → IsExtern table names (Some what) xs → AreSets table self.old b
            → OnOk result (RefersTo (imported b) xs × AreSets table self.new (with_imports b xs)) }
        ensures exact { (table : List Surface) (place around : Id) (full : List Id) (b : PlainBody)
            (xs : List PlainExtern) → AreExact all.now table → AreAdded place table
            → IsPieceExactly table place around full what xs → AreSetsExactly table self.old b
            → OnOk result (AreSetsExactly table self.new (with_imports b xs)) }
        ensures refused { (table : List Surface) (place around : Id) (full : List Id) (b : PlainBody)
            (xs : List PlainExtern) → AreExact all.now table → AreAdded place table
            → IsPieceExactly table place around full what xs → AreSetsExactly table self.old b
            → AreNamedFor table place full b → IfErr result (λ e. IsNamed e → ¬ (RefersTo (imported b) xs)) }
    {
        check(what.refers.outermost.is_nothing())?;
        let Some(used) = what.used else {
            return Ok(());
        };
        check(self.imported.meets(alloc, all, used)?)?;
        check(self.exported.meets(alloc, all, used)?)
    }

    // Names what an export of a component type names, if it may be exported. It is in a scope with that many around it.
    fn export(
        &mut self,
        alloc: Global,
        all: &[InstanceType],
        depth: usize,
        what: Extern,
    ) -> Result<(), Stop>
        ensures other { IfErr result IsOther }
        ensures named { (table : List Surface) (names : List (List Id)) (b : PlainBody) (xs : List PlainExtern)
            → IsTable all.now table → IsExtern table (names_of b.exports ∷ names) (Some what) xs
            → length names ≡ depth → AreSets table self.old b
            → OnOk result (RefersTo (exported b) xs × AreSets table self.new (with_exports b xs)) }
        ensures exact { (table : List Surface) (place around : Id) (full : List Id) (b : PlainBody)
            (xs : List PlainExtern) → AreExact all.now table → AreAdded place table
            → IsPieceExactly table place around full what xs → AreSetsExactly table self.old b
            → OnOk result (AreSetsExactly table self.new (with_exports b xs)) }
        ensures refused { (table : List Surface) (place around : Id) (full : List Id) (b : PlainBody)
            (xs : List PlainExtern) → AreExact all.now table → AreAdded place table
            → IsPieceExactly table place around full what xs → AreSetsExactly table self.old b
            → AreNamedFor table place full b → length place ≡ depth + 1
            → IfErr result (λ e. IsNamed e → ¬ (RefersTo (exported b) xs)) }
    {
        check(what.refers.outermost.is_within(depth))?;
        let Some(used) = what.used else {
            return Ok(());
        };
        check(self.exported.meets(alloc, all, used)?)
    }
}

// What an import names.
fn name_import(
    alloc: Global,
    known: &Known,
    role: &mut Role,
    to: ComponentTypeRef,
) -> Result<(), Stop>
    ensures other { IfErr result IsOther }
    ensures named { (asks : Bool) (b : PlainBody) (outer : List FactScope) (names : List (List Id))
        (table : List Surface) → IsIn known.now b.own outer (names_of b.exports) names table
        → IsRole table names asks role.old b → OnOk result (RefersTo (imported b) (externs_at b.own outer to)
        × IsRole table names asks role.new (after_import outer b to)) }
    ensures exact { InBodyExactly known.now role.old (λ asks b outer named table. IsUsualImport asks to
        → OnOk result (IsRoleExactly table outer named asks role.new (after_import outer b to))) }
    ensures refused { InBodyExactly known.now role.old (λ asks b outer named table. IsUsualImport asks to
        → IfErr result (λ e. IsNamed e → ¬ (RefersTo (imported b) (externs_at b.own outer to)))) }
{
    let Some(what) = extern_at(known, to) else {
        return Ok(());
    };
    match role {
        Role::Names(sets) => sets.import(alloc, &known.instances, what),
        Role::Exporting(_) => check(false),
    }
}

// What an export names.
fn name_export(
    alloc: Global,
    known: &Known,
    role: &mut Role,
    to: ComponentTypeRef,
) -> Result<(), Stop>
    ensures other { IfErr result IsOther }
    ensures named { (asks : Bool) (b : PlainBody) (outer : List FactScope) (names : List (List Id))
        (table : List Surface) → IsIn known.now b.own outer (names_of b.exports) names table
        → IsRole table names asks role.old b → OnOk result (IsAsked asks (exported b) (externs_at b.own outer to)
        × IsRole table names asks role.new (after_export outer b to)) }
    ensures exact { InBodyExactly known.now role.old (λ asks b outer named table.
        OnOk result (IsRoleExported table outer named asks role.new b (externs_at b.own outer to))) }
    ensures refused { InBodyExactly known.now role.old (λ asks b outer named table.
        IfErr result (λ e. IsNamed e → ¬ (IsAsked asks (exported b) (externs_at b.own outer to)))) }
{
    let Some(what) = extern_at(known, to) else {
        return Ok(());
    };
    match role {
        Role::Names(sets) => sets.export(alloc, &known.instances, known.depth(), what),
        Role::Exporting(exported) => exported.export(&known.instances, what),
    }
}

/// An import of a component or a component type.
pub(crate) fn add_import(
    alloc: Global,
    known: &Known,
    body: &mut Body,
    to: ComponentTypeRef,
) -> Result<(), Stop>
    ensures judged { InBody known.now body.old (λ asks b outer names table. Judges result (λ d.
        Keeps d.names (RefersTo (imported b) (externs_at b.own outer to)) × IsSmall d (after_import outer b to))) }
    ensures added { InBody known.now body.old (λ asks b outer names table.
        OnOk result (IsBody asks known.now body.new (after_import outer b to) outer names table)) }
    ensures exact { InBodyExactly known.now body.old.role (λ asks b outer named table. IsUsualImport asks to
        → OnOk result (IsBodyExactly asks known.now body.new (after_import outer b to) outer named table)) }
    ensures refused { InBodyExactly known.now body.old.role (λ asks b outer named table. IsUsualImport asks to
        → IfErr result (λ e. IsNamed e → ¬ (RefersTo (imported b) (externs_at b.own outer to)))) }
{
    name_import(alloc, known, &mut body.role, to)?;
    body.counts.add_import(to)?;
    body.add_size(size_of_reference(known, to))
}

// The type that an export adds.
fn add_exported(known: &mut Known, counts: &mut Counts, to: ComponentTypeRef) -> Result<(), Stop>
    ensures bound { IfErr result IsUnnamed }
    ensures types { OnOk result (known.new.scopes.own.types.items ≡ known.old.scopes.own.types.items
        ++ exported_of known.old.scopes.own.types.items (length known.old.scopes.outer.items) to) }
    ensures beside { SameBeside known.old known.new }
    ensures judged { InScopes known.old (λ own outer here names table. ValidCounts (counted counts.old)
        → Judges result (λ d. Keeps d.counts
        (ValidCounts (with_type_count (counted counts.old) (length (exported_facts own outer to)))))) }
    ensures added { InScopes known.old (λ own outer here names table. OnOk result
        (IsIn known.new (with_types own (exported_facts own outer to)) outer
        (here ++ names_of (externs_at own outer to)) names table)) }
    ensures counts { InScopes known.old (λ own outer here names table. OnOk result
        (counted counts.new ≡ with_type_count (counted counts.old) (length (exported_facts own outer to)))) }
{
    let ComponentTypeRef::TypeEq(index) = to else {
        return Ok(());
    };
    let Some(facts) = known.scopes.own.type_at(index) else {
        return Ok(());
    };
    counts.add_type()?;
    let depth = known.depth();
    known.add_type(facts.named(depth))
}

/// An export of a component, a component type or an instance type.
pub(crate) fn add_export(
    alloc: Global,
    known: &mut Known,
    body: &mut Body,
    to: ComponentTypeRef,
) -> Result<(), Stop>
    ensures judged { InBody known.old body.old (λ asks b outer names table. Judges result (λ d.
        IsAskedFor d asks (exported b) (externs_at b.own outer to) × IsSmall d (after_export outer b to))) }
    ensures added { InBody known.old body.old (λ asks b outer names table.
        OnOk result (IsBody asks known.new body.new (after_export outer b to) outer names table)) }
    ensures exact { InBodyExactly known.old body.old.role (λ asks b outer named table.
        OnOk result (IsBodyExactly asks known.new body.new (after_export outer b to) outer named table)) }
    ensures refused { InBodyExactly known.old body.old.role (λ asks b outer named table.
        IfErr result (λ e. IsNamed e → ¬ (IsAsked asks (exported b) (externs_at b.own outer to)))) }
    ensures outer { known.new.scopes.outer.items ≡ known.old.scopes.outer.items }
{
    name_export(alloc, known, &mut body.role, to)?;
    body.counts.add_export(to)?;
    body.add_size(size_of_reference(known, to))?;
    add_exported(known, &mut body.counts, to)
}
