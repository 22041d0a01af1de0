//! Types of values and of functions.

ghost use Rattle.std.specs.Prelude.{◌≡◌, ◌+◌, ◌<◌, ◌++◌, ◌∷◌, [], false, List, Option, None, Some, map, sum, IfErr};
ghost use Rattle.std.specs.Prelude.{IfOk, flat_map, option_to_list};
ghost use Rattle.smith_syntax.specs.Shown.{shown_defined};
ghost use Rattle.smith_syntax.specs.declared.types.ComponentValType.{ComponentValType};
ghost use Rattle.smith_tree.specs.Facts.{FactScope, Facts as PlainFacts, Id, is_nominal, members, sizes, value_needs};
ghost use Rattle.smith_tree.specs.Demands.{Keeps};
ghost use Rattle.smith_tree.specs.Sizes.{SmallDefined, defined_size, maybe_size, signature_members, signature_size};
ghost use Rattle.smith_tree.specs.Sizes.{size_bound, summed, value_size};
ghost use Rattle.smith_validate.specs.Instances.{AreKept, Surface, IsKept};
ghost use Rattle.smith_validate.specs.Judges.{IsUnnamed, Judges};
ghost use Rattle.smith_syntax.specs.Sizes.{capped};
ghost use Rattle.smith_validate.specs.Kept.{kept_in, kept_of};
ghost use Rattle.smith_validate.specs.Marks.{Covers, both, no_needs, nominal_facts, plain_facts};
ghost use Rattle.smith_validate.specs.Values.{AreValues, CoversValues, HasMarks, defined_plain, function_plain};
ghost use Rattle.smith_validate.specs.Values.{marks_from, value_marks};
ghost use Rattle.smith_validate.specs.Preceding.{AmongKept};

use crate::error::{Demand, Stop};
use crate::facts::{Facts, Needs};
use crate::known::Scope;
use smith_syntax::{ComponentValType, DefinedType, FuncType, SIZE_BOUND, Valued, size_sum};

/// Value types: what has to be named when they are used, and the sum of their effective sizes.
#[derive(Clone, Copy, Debug)]
struct Values {
    needs: Needs,
    size: u32,
}

impl Values {
    // None, with that to begin the sum.
    fn new(size: u32) -> Values
        ensures size { result.size ≡ size }
        ensures needs { result.needs ≡ no_needs }
    {
        Values {
            needs: Needs::nothing(),
            size,
        }
    }

    fn add(self, scope: &Scope, ty: ComponentValType) -> Values
        ensures size { (own : FactScope) → kept_in scope.now ≡ kept_of own
            → result.size ≡ capped (self.size + value_size (sizes own.types) ty) }
        ensures needs { (types : List PlainFacts) (names : List (List Id)) (table : List Surface)
            (before : List ComponentValType) → AreKept table names scope.now.types.items types
            → CoversValues types names self.needs before
            → CoversValues types names result.needs (before ++ ty ∷ []) }
        ensures marks { result.needs ≡ both self.needs (value_marks scope.now.types.items ty) }
    {
        let (needs, size) = value_of(scope, ty);
        Values {
            needs: self.needs.with(needs),
            size: size_sum(self.size, size),
        }
    }

    // One that may be missing, and adds nothing then.
    fn add_some(self, scope: &Scope, ty: Option<ComponentValType>) -> Values
        ensures size { (own : FactScope) → kept_in scope.now ≡ kept_of own
            → capped self.size ≡ self.size
            → result.size ≡ capped (self.size + sum (map (value_size (sizes own.types)) (option_to_list ty))) }
        ensures needs { (types : List PlainFacts) (names : List (List Id)) (table : List Surface)
            (before : List ComponentValType) → AreKept table names scope.now.types.items types
            → CoversValues types names self.needs before
            → CoversValues types names result.needs (before ++ option_to_list ty) }
        ensures marks { result.needs ≡ marks_from scope.now.types.items self.needs (option_to_list ty) }
    {
        match ty {
            Some(ty) => self.add(scope, ty),
            None => self,
        }
    }

    // One that may be missing, and counts as 1 then.
    fn add_maybe(self, scope: &Scope, ty: Option<ComponentValType>) -> Values
        ensures size { (own : FactScope) → kept_in scope.now ≡ kept_of own
            → result.size ≡ capped (self.size + maybe_size (sizes own.types) ty) }
        ensures needs { (types : List PlainFacts) (names : List (List Id)) (table : List Surface)
            (before : List ComponentValType) → AreKept table names scope.now.types.items types
            → CoversValues types names self.needs before
            → CoversValues types names result.needs (before ++ option_to_list ty) }
        ensures marks { result.needs ≡ marks_from scope.now.types.items self.needs (option_to_list ty) }
    {
        match ty {
            Some(ty) => self.add(scope, ty),
            None => Values {
                needs: self.needs,
                size: size_sum(self.size, 1),
            },
        }
    }
}

// What has to be named when a value is of that type, and its size.
fn value_of(scope: &Scope, ty: ComponentValType) -> (Needs, u32)
    ensures size { (own : FactScope) → kept_in scope.now ≡ kept_of own
        → result.1 ≡ capped (value_size (sizes own.types) ty) }
    ensures needs { AmongKept scope.now.types.items (λ types names table.
        Covers names result.0 (value_needs types ty)) }
    ensures marks { result.0 ≡ value_marks scope.now.types.items ty }
{
    match ty {
        ComponentValType::Primitive(_) => (Needs::nothing(), 1),
        ComponentValType::Indexed(index) => match scope.type_at(index) {
            Some(facts) => (facts.needs, facts.size),
            None => (Needs::nothing(), 1),
        },
    }
}

// The value types of members. One that has none adds nothing.
fn values_of<T: Valued>(scope: &Scope, items: &[T]) -> Values
    ensures size { (own : FactScope) → kept_in scope.now ≡ kept_of own
        → result.size ≡ capped (summed (sizes own.types) (flat_map (λ i. option_to_list (T.value i)) items.now)) }
    ensures needs { AmongKept scope.now.types.items (λ types names table.
        CoversValues types names result.needs (flat_map (λ i. option_to_list (T.value i)) items.now)) }
    ensures marks { result.needs
        ≡ marks_from scope.now.types.items no_needs (flat_map (λ i. option_to_list (T.value i)) items.now) }
{
    let mut values = Values::new(1);
    for item in items {
        values = values.add_some(scope, item.value());
    }
    values
}

// Checks a sum.
fn check_size(values: Values) -> Result<Values, Stop>
    ensures bound { IfErr result IsUnnamed }
    ensures judged { Judges result (λ d. Keeps d.sizes (values.size < size_bound)) }
    ensures same { IfOk result (λ v. v ≡ values) }
{
    if values.size < SIZE_BOUND {
        Ok(values)
    } else {
        Err(Stop::Invalid(Demand::Size))
    }
}

// The value types of members, and of what follows them, if their sum is below the bound.
fn small_values<T: Valued>(
    scope: &Scope,
    items: &[T],
    last: Option<ComponentValType>,
) -> Result<Values, Stop>
    ensures { AreValues result scope.now (flat_map (λ i. option_to_list (T.value i)) items.now ++ option_to_list last)
        (λ types. summed types (flat_map (λ i. option_to_list (T.value i)) items.now ++ option_to_list last)
        < size_bound)
        (λ types. summed types (flat_map (λ i. option_to_list (T.value i)) items.now ++ option_to_list last)) }
{
    let values = values_of(scope, items);
    check_size(values.add_some(scope, last))
}

fn plain_type(values: Values) -> Facts
    ensures { result ≡ plain_facts values.needs values.size }
{
    Facts::new(values.needs, values.size)
}

fn nominal_type(values: Values) -> Facts
    ensures { result ≡ nominal_facts values.needs values.size }
{
    Facts::nominal(values.needs, values.size)
}

// The value types that a type is made of, and its size.
fn values_in(scope: &Scope, ty: &DefinedType) -> Result<Values, Stop>
    ensures { AreValues result scope.now (members (shown_defined ty.now))
        (λ types. SmallDefined types (shown_defined ty.now)) (λ types. defined_size types (shown_defined ty.now)) }
{
    match ty {
        DefinedType::Primitive(_) => Ok(Values::new(1)),
        DefinedType::Record(ty) => small_values(scope, &ty.fields, None),
        DefinedType::Variant(ty) => small_values(scope, &ty.cases, None),
        DefinedType::List(ty) => Ok(Values::new(0).add(scope, ty.elem_ty)),
        DefinedType::Tuple(ty) => small_values(scope, &ty.fields, None),
        DefinedType::Flags(_) => Ok(Values::new(1)),
        DefinedType::Enum(_) => Ok(Values::new(1)),
        DefinedType::Option(ty) => Ok(Values::new(0).add(scope, ty.inner_ty)),
        DefinedType::Result(ty) => {
            let ok = Values::new(0).add_maybe(scope, ty.ok_ty);
            Ok(ok.add_maybe(scope, ty.err_ty))
        }
    }
}

// Whether it is a record, a variant, flags or an enum.
fn is_nominal(ty: &DefinedType) -> bool
    ensures { result ≡ is_nominal (shown_defined ty.now) }
{
    match ty {
        DefinedType::Record(_)
        | DefinedType::Variant(_)
        | DefinedType::Flags(_)
        | DefinedType::Enum(_) => true,
        DefinedType::Primitive(_)
        | DefinedType::List(_)
        | DefinedType::Tuple(_)
        | DefinedType::Option(_)
        | DefinedType::Result(_) => false,
    }
}

/// A type of values.
pub(crate) fn defined_facts(scope: &Scope, ty: &DefinedType) -> Result<Facts, Stop>
    ensures bound { IfErr result IsUnnamed }
    ensures judged { (own : FactScope) → kept_in scope.now ≡ kept_of own
        → Judges result (λ d. Keeps d.sizes (SmallDefined (sizes own.types) (shown_defined ty.now))) }
    ensures size { (own : FactScope) → kept_in scope.now ≡ kept_of own
        → IfOk result (λ f. f.size ≡ capped (defined_size (sizes own.types) (shown_defined ty.now))) }
    ensures kept { (id : Id) → AmongKept scope.now.types.items (λ types names table.
        IfOk result (λ f. IsKept table names f (defined_plain id types (shown_defined ty.now)))) }
    ensures marks { IfOk result (λ f. HasMarks f (is_nominal (shown_defined ty.now))
        (marks_from scope.now.types.items no_needs (members (shown_defined ty.now)))) }
{
    let values = values_in(scope, ty)?;
    if is_nominal(ty) {
        return Ok(nominal_type(values));
    }
    Ok(plain_type(values))
}

/// A type of functions.
pub(crate) fn function_facts(scope: &Scope, ty: &FuncType) -> Result<Facts, Stop>
    ensures bound { IfErr result IsUnnamed }
    ensures judged { (own : FactScope) → kept_in scope.now ≡ kept_of own
        → Judges result (λ d. Keeps d.sizes (signature_size (sizes own.types) ty.now < size_bound)) }
    ensures size { (own : FactScope) → kept_in scope.now ≡ kept_of own
        → IfOk result (λ f. f.size ≡ capped (signature_size (sizes own.types) ty.now)) }
    ensures kept { (id : Id) → AmongKept scope.now.types.items (λ types names table.
        IfOk result (λ f. IsKept table names f (function_plain id types ty.now))) }
    ensures marks { IfOk result (λ f. HasMarks f false
        (marks_from scope.now.types.items no_needs (signature_members ty.now))) }
{
    let values = small_values(scope, &ty.params, ty.result)?;
    Ok(plain_type(values))
}
