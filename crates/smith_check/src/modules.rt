//! Core types.

ghost use Rattle.std.specs.Prelude.{◌≡◌, ◌⊎◌, ◌&&◌, ◌||◌, ◌<◌, ◌+◌, ℕ, true, false, List, [], ◌∷◌, ◌++◌, length, map};
ghost use Rattle.std.specs.Prelude.{slice_get, bytes_eq, IfOk, IfErr, OnOk, option_map, option_to_list};
ghost use Rattle.std.specs.Borrow.{Bor};
ghost use Rattle.smith_format.specs.CoreFormed.{FormedLimits, FormedMemory, FormedTable};
ghost use Rattle.smith_format.specs.Shown.{shown_func};
ghost use Rattle.smith_format.specs.declared.types.RefType.TheVariants.{ExternRef, FuncRef};
ghost use Rattle.smith_syntax.specs.Entries.{ModuleDecl};
ghost use Rattle.smith_syntax.specs.ModuleTypes.{HasNewNames, adds, aliased};
ghost use Rattle.smith_syntax.specs.Possible.{PossibleCore, PossibleDecl, PossibleEntity, PossibleLimits};
ghost use Rattle.smith_syntax.specs.Possible.{PossibleMemory, PossibleModule, PossibleTable};
ghost use Rattle.smith_syntax.specs.WellFormed.{FormedCore, FormedDecl, FormedDecls, FormedEntity};
ghost use Rattle.smith_read.specs.Nodes.{shown_core_node, shown_module_node};
ghost use Rattle.smith_check.specs.Judges.{Decides, Grades, Judges};
ghost use Rattle.smith_scopes.specs.NodeScopes.{outer_in, own_in};
ghost use Rattle.smith_check.specs.Preceding.{functions_in};
ghost use Rattle.smith_check.specs.Taken.{HoldsModule, has_pair};
ghost use Rattle.smith_check.specs.declared.error.Stop.TheVariants.{OutOfMemory};

use crate::error::{Checked, Rule, Stop};
use crate::names::Names;
use smith_format::{EntityType, FuncType, MemoryType, RefType, TableType};
use smith_read::{CoreNode, ModuleNode};
use smith_scopes::NodeScopes;
use std::alloc::Global;
use std::collections::BTreeSet;

// Are the minimum and the maximum, if there is one, within bounds?
fn are_limits(minimum: u64, maximum: Option<u64>) -> bool
    ensures { Decides result (FormedLimits minimum maximum) }
{
    match maximum {
        Some(maximum) => minimum <= 10 && minimum <= maximum && maximum <= 20,
        None => minimum <= 10,
    }
}

// May the standard have such limits, of which those with addresses of 32 bits are at most `top`?
fn are_possible(top: u64, wide: bool, minimum: u64, maximum: Option<u64>) -> bool
    ensures { Decides result (PossibleLimits top wide minimum maximum) }
{
    match maximum {
        Some(maximum) => minimum <= maximum && (wide || maximum <= top),
        None => wide || minimum <= top,
    }
}

fn check_memory(memory: MemoryType) -> Checked
    ensures judged { Judges result (FormedMemory memory) }
    ensures graded { Grades result (PossibleMemory memory) }
{
    let MemoryType {
        minimum,
        maximum,
        shared,
        memory64,
    } = memory;
    if are_limits(minimum, maximum) && !shared && !memory64 {
        return Ok(());
    }
    if are_possible(65_536, memory64, minimum, maximum) && (!shared || maximum.is_some()) {
        return Err(Stop::Outside(Rule::Memory));
    }
    Err(Stop::IllFormed(Rule::Memory))
}

// Is it `funcref` or `externref`?
fn is_element(element: RefType) -> bool
    ensures { Decides result ((element ≡ FuncRef) ⊎ ((true ≡ true) × (element ≡ ExternRef))) }
{
    matches!(element, RefType::FuncRef | RefType::ExternRef)
}

fn check_table(table: TableType) -> Checked
    ensures judged { Judges result (FormedTable true table) }
    ensures graded { Grades result (PossibleTable table) }
{
    if is_element(table.element_type)
        && are_limits(table.minimum, table.maximum)
        && !table.table64
    {
        return Ok(());
    }
    if are_possible(4_294_967_295, table.table64, table.minimum, table.maximum) {
        return Err(Stop::Outside(Rule::Table));
    }
    Err(Stop::IllFormed(Rule::Table))
}

// The function type with that index in a module type.
fn function_at<'a>(own: &[&'a FuncType], index: u32) -> Option<&'a FuncType>
    ensures { option_map (λ f. shown_func f.now) result ≡ slice_get (functions_in own.now) index }
{
    own.get(index as usize).copied()
}

// Checks what a module type imports or exports, given its function types so far.
fn check_entity(own: &[&FuncType], entity: EntityType) -> Checked
    ensures judged { Judges result (FormedEntity (functions_in own.now) entity) }
    ensures graded { Grades result (PossibleEntity (functions_in own.now) entity) }
{
    match entity {
        EntityType::Func(index) => match function_at(own, index) {
            Some(_) => Ok(()),
            None => Err(Stop::IllFormed(Rule::NoType)),
        },
        EntityType::Table(table) => check_table(table),
        EntityType::Memory(memory) => check_memory(memory),
        EntityType::Global(_) => Ok(()),
        EntityType::Tag(tag) => match function_at(own, tag.func_type_idx) {
            Some(ty) => if ty.results.is_empty() {
                Ok(())
            } else {
                Err(Stop::Outside(Rule::TagResults))
            },
            None => Err(Stop::IllFormed(Rule::NoType)),
        },
    }
}

// The function type that an outer alias in a module type names.
fn aliased<'a>(
    scopes: &NodeScopes<'a>,
    own: &[&'a FuncType],
    count: u32,
    index: u32,
) -> Option<&'a FuncType>
    ensures { option_map (λ f. shown_func f.now) result
        ≡ aliased (own_in scopes.now).core_types (functions_in own.now) count index }
{
    match count {
        0 => function_at(own, index),
        1 => match scopes.core_type_at(index)? {
            CoreNode::Func(ty) => Some(ty),
            CoreNode::Module(_) => None,
        },
        _ => None,
    }
}

// Is it the count of a scope beyond the one around the module type?
fn is_far(scopes: &NodeScopes<'_>, count: u32) -> bool
    ensures { Decides result ((1 < count) × (count < length (outer_in scopes.now) + 2)) }
{
    count > 1 && count as usize - 1 < scopes.nest.depth()
}

// Checks a declaration of a module type, given its function types so far.
fn check_module_decl<'a>(
    scopes: &NodeScopes<'a>,
    own: &[&'a FuncType],
    decl: &ModuleNode,
) -> Checked
    ensures judged { Judges result
        (FormedDecl (own_in scopes.now).core_types (functions_in own.now) (shown_module_node decl.now)) }
    ensures graded { Grades result
        (PossibleDecl (own_in scopes.now).core_types (length (outer_in scopes.now)) (functions_in own.now)
        (shown_module_node decl.now)) }
{
    match decl {
        ModuleNode::Func(_) => Ok(()),
        ModuleNode::OuterAlias { count, index } => match aliased(scopes, own, *count, *index) {
            Some(_) => Ok(()),
            None if is_far(scopes, *count) => Err(Stop::Outside(Rule::OuterAlias)),
            None => Err(Stop::IllFormed(Rule::OuterAlias)),
        },
        ModuleNode::Import { entity, .. } | ModuleNode::Export { entity, .. } => {
            check_entity(own, *entity)
        }
    }
}

// The function type that a declaration adds to its module type, if any.
fn added<'a>(
    scopes: &NodeScopes<'a>,
    own: &[&'a FuncType],
    decl: &'a ModuleNode,
) -> Option<&'a FuncType>
    ensures { option_to_list (option_map (λ f. shown_func f.now) result)
        ≡ adds (own_in scopes.now).core_types (functions_in own.now) (shown_module_node decl.now) }
{
    match decl {
        ModuleNode::Func(ty) => Some(ty),
        ModuleNode::OuterAlias { count, index } => aliased(scopes, own, *count, *index),
        ModuleNode::Import { .. } | ModuleNode::Export { .. } => None,
    }
}

// Adds a function type, if there is one.
fn push_function<'a>(own: &mut Vec<&'a FuncType>, ty: Option<&'a FuncType>) -> Checked
    ensures added { OnOk result (functions_in own.new.items
        ≡ functions_in own.old.items ++ option_to_list (option_map (λ f. shown_func f.now) ty.entry)) }
    ensures memory { IfErr result (λ e. e ≡ OutOfMemory) }
{
    if let Some(ty) = ty {
        own.push(ty)?;
    }
    Ok(())
}

// The pairs of names that a module type imports, and the names that it exports.
#[derive(Drop)]
struct ModuleNames<'a> {
    imports: BTreeSet<(&'a str, &'a str)>,
    exports: Names<'a>,
}

impl<'a> ModuleNames<'a> {
    fn new(alloc: Global) -> ModuleNames<'a>
        ensures { HoldsModule result [] }
    {
        ModuleNames {
            imports: BTreeSet::new(alloc),
            exports: Names::new(alloc),
        }
    }

    // Adds the two names of an import, which have to be a new pair.
    fn add_import(&mut self, of_module: &'a str, name: &'a str) -> Checked
        ensures fresh { IfOk result (λ _. has_pair self.old of_module.entry name.entry ≡ false) }
        ensures refused { IfErr result
            (λ e. ¬ (e ≡ OutOfMemory) → has_pair self.old of_module.entry name.entry ≡ true) }
        ensures added { OnOk result ((m n : Bor (List ℕ)) → has_pair self.new m n
            ≡ ((bytes_eq of_module.now m.now && bytes_eq name.now n.now) || has_pair self.old m n)) }
        ensures exports { self.new.exports ≡ self.old.exports }
    {
        if self.imports.insert((of_module, name))? {
            Ok(())
        } else {
            Err(Stop::IllFormed(Rule::NameTwice))
        }
    }

    // Adds the names of a declaration, which have to be new.
    fn add(&mut self, decl: &'a ModuleNode) -> Checked
        ensures judged { (before : List ModuleDecl) → HoldsModule self.old before → HasNewNames before
            → Judges result (HasNewNames (before ++ shown_module_node decl.now ∷ [])) }
        ensures added { (before : List ModuleDecl) → HoldsModule self.old before
            → OnOk result (HoldsModule self.new (before ++ shown_module_node decl.now ∷ [])) }
    {
        match decl {
            ModuleNode::Func(_) => Ok(()),
            ModuleNode::OuterAlias { .. } => Ok(()),
            ModuleNode::Import { module, name, .. } => self.add_import(module, name),
            ModuleNode::Export { name, .. } => self.exports.add_new(name),
        }
    }
}

// Checks the declarations of a module type.
fn check_module<'a>(alloc: Global, scopes: &NodeScopes<'a>, decls: &'a [ModuleNode]) -> Checked
    ensures judged { Judges result (FormedDecls (own_in scopes.now).core_types [] (map shown_module_node decls.now)
        × HasNewNames (map shown_module_node decls.now)) }
    ensures graded { Grades result (PossibleModule (own_in scopes.now).core_types (length (outer_in scopes.now)) []
        (map shown_module_node decls.now) × HasNewNames (map shown_module_node decls.now)) }
{
    let mut own = Vec::new(alloc);
    let mut names = ModuleNames::new(alloc);
    for decl in decls {
        check_module_decl(scopes, &own, decl)?;
        names.add(decl)?;
        let ty = added(scopes, &own, decl);
        push_function(&mut own, ty)?;
    }
    Ok(())
}

pub(crate) fn check_core<'a>(alloc: Global, scopes: &NodeScopes<'a>, ty: &'a CoreNode) -> Checked
    ensures judged { Judges result (FormedCore (shown_core_node ty.now) (own_in scopes.now).core_types) }
    ensures graded { Grades result
        (PossibleCore (shown_core_node ty.now) (own_in scopes.now).core_types (length (outer_in scopes.now))) }
{
    match ty {
        CoreNode::Func(_) => Ok(()),
        CoreNode::Module(decls) => check_module(alloc, scopes, decls),
    }
}
