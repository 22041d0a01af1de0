//! Types of components and of instances, from the input.

ghost use Rattle.std.specs.Prelude.{◌≡◌, ◌≤◌, [], List, true, false, length, IfOk, IfErr, OnOk, OnErr};
ghost use Rattle.smith_input.specs.Consumes.{Consumes};
ghost use Rattle.smith_syntax.specs.Entries.{in_order};
ghost use Rattle.smith_syntax.specs.Shown.{full_type};
ghost use Rattle.smith_syntax.specs.Marked.{Marked};
ghost use Rattle.smith_types.specs.Declarations.{SoFar, nothing_so_far};
ghost use Rattle.smith_types.specs.MakingTypes.{AddsDeclaration, DeclaresAll, HasRoom, HoldsNames, IsMarkOf};
ghost use Rattle.smith_types.specs.MakingTypes.{MadeScoped, OpensInner, SameOuter, declaring, defs_in, is_importing};
ghost use Rattle.smith_scopes.specs.Scopes.{own_marked, outer_marked};

use super::externs::{ComponentNames, ExternNames};
use super::items::{read_component_declaration, read_declaration};
use super::making::Making;
use smith_format::burn;
use smith_input::{Error, Unstructured};
use smith_scopes::Scopes;
use smith_syntax::{
    ComponentType, ComponentTypeDef, DefType, InstanceType, InstanceTypeDecl, Mark,
};
use std::alloc::Global;

// An empty scope is opened in the last one.
fn open_inner(scopes: &mut Scopes) -> Result<(), Error>
    ensures ok { OnOk result (OpensInner scopes.old scopes.new) }
    ensures err { OnErr result (scopes.new ≡ scopes.old) }
    ensures memory { IfErr result (λ e. e ≡ Error.OutOfMemory) }
{
    scopes.open_scope()
}

// What a component type declares so far, in order, and the names of its imports and exports.
#[derive(Drop)]
struct ComponentBody {
    names: ComponentNames,
    defs: Vec<ComponentTypeDef>,
}

// What an instance type declares so far, in order, and the names of its exports. It imports nothing.
#[derive(Drop)]
struct InstanceBody {
    exports: ExternNames,
    defs: Vec<InstanceTypeDecl>,
}

// What a component type or an instance type declares so far.
#[derive(Drop)]
enum TypeBody {
    Component(ComponentBody),
    Instance(InstanceBody),
}

impl TypeBody {
    // What a component type (true) or an instance type (false) declares before its first declaration.
    fn new(alloc: Global, importing: bool) -> TypeBody
        ensures importing { is_importing result ≡ importing }
        ensures names { (outer : List Marked) → HoldsNames result (nothing_so_far outer) }
        ensures defs { defs_in result ≡ [] }
    {
        let exports = ExternNames::new(alloc);
        if importing {
            let imports = ExternNames::new(alloc);
            return TypeBody::Component(ComponentBody {
                names: ComponentNames { imports, exports },
                defs: Vec::new(alloc),
            });
        }
        TypeBody::Instance(InstanceBody {
            exports,
            defs: Vec::new(alloc),
        })
    }

    // The type that declares them.
    fn finish(self) -> DefType
        ensures { full_type result ≡ declaring (is_importing self) (in_order (defs_in self)) }
    {
        match self {
            TypeBody::Component(body) => DefType::Component(ComponentType { defs: body.defs }),
            TypeBody::Instance(body) => DefType::Instance(InstanceType { defs: body.defs }),
        }
    }
}

// One more declaration, in the last scope.
#[cycle(making)]
fn declare(
    making: &Making,
    u: &mut Unstructured,
    scopes: &mut Scopes,
    fuel: &mut u32,
    declared: &mut TypeBody,
) -> Result<(), Error>
    requires room { HasRoom scopes.old }
    ensures made { (so_far : SoFar) → own_marked scopes.old ≡ so_far.own → HoldsNames declared.old so_far
        → OnOk result (AddsDeclaration making.now.config.now scopes.old scopes.new so_far declared.old declared.new
        u.old fuel.old u.new fuel.new) }
    ensures outer { SameOuter scopes.old scopes.new }
    ensures input { Consumes result u.old u.new }
{
    match declared {
        TypeBody::Component(body) => {
            let def = read_component_declaration(making, u, scopes, fuel, &mut body.names)?;
            body.defs.push(def)?;
        }
        TypeBody::Instance(body) => {
            let decl = read_declaration(making, u, scopes, fuel, &mut body.exports)?;
            body.defs.push(decl)?;
        }
    }
    Ok(())
}

// The declarations of a component type (true) or of an instance type (false), whose scope is the last one and empty.
#[cycle(making)]
fn read_declarations(
    making: &Making,
    u: &mut Unstructured,
    scopes: &mut Scopes,
    fuel: &mut u32,
    importing: bool,
) -> Result<TypeBody, Error>
    requires shallow { length scopes.old ≤ 1002 }
    requires fresh { own_marked scopes.old ≡ (nothing_so_far (outer_marked scopes.old)).own }
    ensures made { IfOk result (λ d. DeclaresAll making.now.config.now importing (outer_marked scopes.old) u.old
        fuel.old d (own_marked scopes.new) u.new fuel.new) }
    ensures outer { SameOuter scopes.old scopes.new }
    ensures input { Consumes result u.old u.new }
{
    let mut declared = TypeBody::new(making.alloc, importing);
    for done in 0..100 {
        if !u.more_of(making.config.loop_bits, done, 0, 100) {
            return Ok(declared);
        }
        burn(fuel);
        if *fuel == 0 {
            return Ok(declared);
        }
        declare(making, u, scopes, fuel, &mut declared)?;
    }
    Ok(declared)
}

// The type of a component (true) or of an instance (false). Its scope is closed again, after a refusal too.
#[cycle(making)]
pub(super) fn read_scoped_type(
    making: &Making,
    u: &mut Unstructured,
    scopes: &mut Scopes,
    fuel: &mut u32,
    importing: bool,
) -> Result<(DefType, Mark), Error>
    requires shallow { length scopes.old ≤ 1001 }
    ensures made { IfOk result (λ t. MadeScoped making.now.config.now (own_marked scopes.old) (outer_marked scopes.old)
        importing u.old fuel.old (full_type t.0) u.new fuel.new) }
    ensures mark { IfOk result (λ t. IsMarkOf scopes.old (full_type t.0) t.1) }
    ensures scopes { scopes.new ≡ scopes.old }
    ensures input { Consumes result u.old u.new }
{
    open_inner(scopes)?;
    let made = read_declarations(making, u, scopes, fuel, importing);
    let mark = scopes.closed_mark(!importing);
    scopes.close_scope();
    Ok((made?.finish(), mark))
}
