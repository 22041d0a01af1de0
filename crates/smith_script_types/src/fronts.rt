//! What a module type begins with for the canonical ABI (CanonicalABI.md, memory management): it takes no fuel.

ghost use Rattle.std.specs.Prelude.{◌≡◌, codes, map};
ghost use Rattle.smith_format.specs.declared.types.ExportKind.TheVariants as kind;
ghost use Rattle.smith_read.specs.Nodes.{shown_core_node, shown_module_node};
ghost use Rattle.smith_syntax.specs.ModuleTypes.{after_front, after_function, after_memory, after_realloc, is_export};
ghost use Rattle.smith_syntax.specs.ModuleTypes.{is_function_of, is_of_kind, is_type, same_i32s};
ghost use Rattle.smith_syntax.specs.WellFormed.{core_size};
ghost use Rattle.smith_script_types.specs.Fronts.{i32s, i32_function};

use smith_format::{EntityType, ValType};
use smith_read::{CoreNode, ModuleNode};

// Is it the export of a memory by its name?
fn is_memory(decl: &ModuleNode) -> bool
    ensures { result ≡ is_export (codes "memory") (is_of_kind kind.Memory) (shown_module_node decl.now) }
{
    match decl {
        ModuleNode::Export { name, entity } => name.as_str() == "memory"
            && matches!(entity, EntityType::Memory(_)),
        ModuleNode::Func(_) | ModuleNode::Import { .. } | ModuleNode::OuterAlias { .. } => false,
    }
}

// Is it the export of a function of that type by this name?
fn is_function(decl: &ModuleNode, name: &str, ty: u32) -> bool
    ensures { result ≡ is_export name.now (is_function_of ty) (shown_module_node decl.now) }
{
    match decl {
        ModuleNode::Export {
            name: other,
            entity: EntityType::Func(index),
        } => other.as_str() == name && ty == *index,
        _ => false,
    }
}

// Are there that many values, each of them an i32?
fn are_i32s(values: &[ValType], count: usize) -> bool
    ensures { result ≡ same_i32s (i32s count) values.now }
{
    if count == 0 {
        return values.is_empty();
    }
    match values.split_first() {
        Some((ValType::I32, rest)) => are_i32s(rest, count - 1),
        _ => false,
    }
}

// Is it that function type, which has that many values, all of them i32?
fn is_type(decl: &ModuleNode, params: usize, results: usize) -> bool
    ensures { result ≡ is_type (i32_function params results) (shown_module_node decl.now) }
{
    match decl {
        ModuleNode::Func(ty) => are_i32s(&ty.params, params) && are_i32s(&ty.results, results),
        _ => false,
    }
}

/// What follows the export of a memory.
pub fn after_memory(decls: &[ModuleNode]) -> &[ModuleNode]
    ensures { map shown_module_node result.now ≡ after_memory (map shown_module_node decls.now) }
{
    match decls.split_first() {
        Some((first, rest)) if is_memory(first) => rest,
        _ => decls,
    }
}

// What follows a function type and the export of a function of that type.
fn after_function<'b>(
    decls: &'b [ModuleNode],
    name: &str,
    ty: u32,
    params: usize,
    results: usize,
) -> &'b [ModuleNode]
    ensures { map shown_module_node result.now
        ≡ after_function name.now (i32_function params results) ty (map shown_module_node decls.now) }
{
    if decls.len() < 2 {
        return decls;
    }
    if is_type(&decls[0], params, results) && is_function(&decls[1], name, ty) {
        return &decls[2..];
    }
    decls
}

/// What follows the function that reallocates.
pub fn after_realloc(decls: &[ModuleNode]) -> &[ModuleNode]
    ensures { map shown_module_node result.now ≡ after_realloc (map shown_module_node decls.now) }
{
    after_function(decls, "canonical_abi_realloc", 0, 4, 1)
}

/// What follows all that.
pub fn after_front(decls: &[ModuleNode]) -> &[ModuleNode]
    ensures { map shown_module_node result.now ≡ after_front (map shown_module_node decls.now) }
{
    let behind_memory = after_memory(decls);
    let behind_realloc = after_realloc(behind_memory);
    let ty = u32::from(behind_realloc.len() < behind_memory.len());
    after_function(behind_realloc, "canonical_abi_free", ty, 3, 0)
}

/// How many declarations of a core type take fuel.
pub fn core_size(ty: &CoreNode) -> usize
    ensures { result ≡ core_size (shown_core_node ty.now) }
{
    match ty {
        CoreNode::Func(_) => 0,
        CoreNode::Module(decls) => after_front(decls).len(),
    }
}
