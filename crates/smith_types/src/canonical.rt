//! Function types of components as core function types (CanonicalABI.md, flattening), and the other way round.

ghost use Rattle.std.specs.Prelude.{◌≡◌, ◌++◌, ℕ, List, true, [], map, Some, IfOk, IfErr, is_some};
ghost use Rattle.std.specs.List.{AllByRecursion, list_all};
ghost use Rattle.smith_format.specs.Shown.{shown_func};
ghost use Rattle.smith_format.specs.declared.config.Config.{Config};
ghost use Rattle.smith_input.specs.Choices.{ReadsAmong};
ghost use Rattle.smith_input.specs.Consumes.{Consumes};
ghost use Rattle.smith_input.specs.Reading.{IsTail};
ghost use Rattle.smith_syntax.specs.Entries.{Signature};
ghost use Rattle.smith_syntax.specs.Flat.{flat_value, is_scalar, Flattens};
ghost use Rattle.smith_syntax.specs.Signature.{named};
ghost use Rattle.smith_syntax.specs.WellFormed.{Named};
ghost use Rattle.smith_types.specs.Lifting.{IsLiftable, IsLiftableFunction, ReadsParams, ReadsLiftedType};
ghost use Rattle.smith_tree.specs.TypeOffers.{lifted};
ghost use Rattle.smith_tree.specs.ReadableTypes.{AreReadableNames};
ghost use Rattle.smith_tree.specs.TypeScript.{script_lifted};

use smith_format::ValType;
use smith_input::{Error, MOST_NAME_LEN, Unstructured, new_kebab_string};
use smith_syntax::{ComponentValType, FuncType, PrimitiveValType};
use smith_tree::{flat_primitive, lifted};
use std::alloc::Global;
use std::rc::Rc;

// The core value type of a value type in use: a string and an indexed type have none.
fn flat_value(ty: ComponentValType) -> Option<ValType>
    ensures { result ≡ flat_value ty }
{
    match ty {
        ComponentValType::Primitive(primitive) => flat_primitive(primitive),
        ComponentValType::Indexed(_) => None,
    }
}

fn flat_params(alloc: Global, params: &[(String, ComponentValType)]) -> Result<Vec<ValType>, Error>
    requires { list_all (λ p. is_some (flat_value p.1)) (map named params.now) ≡ true }
    ensures flat { IfOk result (λ v. map (λ p. flat_value p.1) (map named params.now) ≡ map Some v.items) }
    ensures memory { IfErr result (λ e. e ≡ Error.OutOfMemory) }
{
    let mut flat = Vec::with_capacity(alloc, params.len())?;
    for (_, ty) in params {
        flat.push(flat_value(*ty).unwrap())?;
    }
    Ok(flat)
}

/// The core function type that a scalar function type flattens to: a core value type for each parameter, and one for
/// the result. It fails only when out of memory.
pub fn canonical_abi_for(
    alloc: Global,
    func: &FuncType,
) -> Result<Rc<smith_format::FuncType>, Error>
    requires { is_scalar func.now ≡ true }
    ensures flattens { IfOk result (λ f. Flattens func.now (shown_func f.value)) }
    ensures memory { IfErr result (λ e. e ≡ Error.OutOfMemory) }
{
    let params = flat_params(alloc, &func.params)?;
    let mut results = Vec::new(alloc);
    results.push(flat_value(func.result.unwrap()).unwrap())?;
    let core = Rc::new(alloc, smith_format::FuncType { params, results })?;
    Ok(core)
}

// One of them, by a choice. A choice among one reads nothing.
fn lifted_primitive(u: &mut Unstructured, ty: ValType) -> PrimitiveValType
    requires { IsLiftable ty }
    ensures reads { ReadsAmong (lifted ty) u.old result u.new }
    ensures tail { IsTail u.new u.old }
{
    *u.choose(lifted(ty))
}

fn lifted_params(
    alloc: Global,
    u: &mut Unstructured,
    max_name_length: usize,
    core: &[ValType],
) -> Result<Vec<(String, ComponentValType)>, Error>
    requires { AllByRecursion IsLiftable core.now }
    ensures reads { IfOk result (λ v. ReadsParams max_name_length [] core.now u.old (map named v.items) u.new) }
    ensures input { Consumes result u.old u.new }
{
    let mut params = Vec::with_capacity(alloc, core.len())?;
    for ty in core {
        let name = new_kebab_string(alloc, max_name_length, &params.as_slice(), u)?;
        let primitive = lifted_primitive(u, *ty);
        params.push((name, ComponentValType::Primitive(primitive)))?;
    }
    Ok(params)
}

/// The same with names as long as this: `inverse_scalar_canonical_abi_for` reads them with 100. Public only for the
/// crates above.
pub fn lifted_func_type(
    alloc: Global,
    u: &mut Unstructured,
    max_name_length: usize,
    core: &smith_format::FuncType,
) -> Result<FuncType, Error>
    requires liftable { IsLiftableFunction (shown_func core.now) }
    ensures reads { IfOk result (λ f. ReadsLiftedType max_name_length (shown_func core.now) u.old f u.new) }
    ensures input { Consumes result u.old u.new }
{
    let params = lifted_params(alloc, u, max_name_length, &core.params)?;
    let result = lifted_primitive(u, core.results[0]);
    Ok(FuncType {
        params,
        result: Some(ComponentValType::Primitive(result)),
    })
}

/// A function type that flattens to a core function type, of which all parameters and the one result are i32, i64, f32
/// or f64. For each parameter it reads a name in kebab case of at most 100 bytes that no parameter before it has, and a
/// choice among the primitives that flatten to the parameter's type; then a choice for the result. It fails only when
/// out of memory.
pub fn inverse_scalar_canonical_abi_for(
    alloc: Global,
    u: &mut Unstructured,
    core: &smith_format::FuncType,
) -> Result<FuncType, Error>
    requires liftable { IsLiftableFunction (shown_func core.now) }
    ensures reads { IfOk result (λ f. ReadsLiftedType 100 (shown_func core.now) u.old f u.new) }
    ensures flattens { IfOk result (λ f. Flattens f (shown_func core.now)) }
    ensures named { IfOk result (λ f. Named (map (λ p. p.0) f.params)) }
    // The script of a function type that flattens to the core function type produces that type.
    ensures script { (config : Config) (s : Signature) (rest : List ℕ) → config.max_name_length ≡ 100
        → Flattens s (shown_func core.now)
        → Named (map (λ p. p.0) s.params) → AreReadableNames config (map (λ p. p.0) s.params)
        → u.old ≡ script_lifted config s ++ rest
        → IfOk result (λ f. (f ≡ s) × (u.new ≡ rest)) }
    ensures input { Consumes result u.old u.new }
{
    lifted_func_type(alloc, u, MOST_NAME_LEN, core)
}
