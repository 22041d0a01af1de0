//! What a component needs of the limits. No contract depends on it.

use smith_format::{EntityType, FuncType, RefType, ValType};
use smith_input::Labelled;
use smith_read::{ComponentTree, Contents, CoreNode, DeclNode, ModuleNode, Step, Steps, TypeNode};
use smith_scope::Nest;
use smith_script_types::{after_front, core_size, defined_size};
use smith_syntax::{ComponentTypeRef, DefinedType};
use std::alloc::{AllocError, Global};

/// What a component needs: how many modules, components and instances the whole tree has, and otherwise the most and
/// the least that a component, or a module type, in it has, of entities by their kinds; how many bytes of a name are
/// read; and what there is that takes a feature.
#[derive(Clone, Copy, Default)]
pub(crate) struct Needs {
    pub(crate) depth: usize,
    pub(crate) types: usize,
    pub(crate) imports: usize,
    pub(crate) exports: usize,
    pub(crate) funcs: usize,
    pub(crate) modules: usize,
    pub(crate) components: usize,
    pub(crate) instances: usize,
    pub(crate) kinds: [usize; 5],
    pub(crate) type_size: usize,
    pub(crate) name: usize,
    pub(crate) floats: bool,
    pub(crate) simd: bool,
    pub(crate) references: bool,
    pub(crate) exceptions: bool,
    pub(crate) multi_value: bool,
    pub(crate) least_types: usize,
    pub(crate) least_imports: usize,
    pub(crate) least_funcs: usize,
    pub(crate) least_sections: usize,
}

// How many of each there are in a component so far.
#[derive(Default, Drop)]
struct Own {
    types: usize,
    core_types: usize,
    imports: usize,
    exports: usize,
    funcs: usize,
    sections: usize,
}

// How much fuel a type needs, how much it takes, and how deep types are declared in it.
#[derive(Clone, Copy, Default)]
struct Extent {
    need: usize,
    cost: usize,
    depth: usize,
}

impl Extent {
    // The extent of a type with that many members, which needs that much without any.
    fn of_members(count: usize, least: usize) -> Extent {
        let need = if count == 0 {
            least
        } else {
            count.saturating_add(2)
        };
        Extent {
            need,
            cost: count.saturating_add(1),
            depth: 0,
        }
    }

    // The extent of a core type.
    fn of_core(ty: &CoreNode) -> Extent {
        let is_empty = matches!(ty, CoreNode::Module(decls) if decls.is_empty());
        Extent::of_members(core_size(ty), if is_empty { 0 } else { 2 })
    }

    // The extent of a type with one more declaration, which is of this extent.
    fn with(self, next: Extent) -> Extent {
        let need = self.cost.saturating_add(next.need.max(1)).saturating_add(1);
        Extent {
            need: self.need.max(need),
            cost: self.cost.saturating_add(next.cost).saturating_add(1),
            depth: self.depth.max(next.depth),
        }
    }

    // The extent of a type that is declared.
    fn nested(self) -> Extent {
        Extent {
            depth: self.depth.saturating_add(1).max(2),
            ..self
        }
    }
}

// How many bytes of a text are read. Digits at its end may have made it new, so nothing is said of it then.
fn text_need(name: &str) -> usize {
    match name.as_bytes().last() {
        Some(b'0'..=b'9') => 0,
        _ => name.len(),
    }
}

// The same for a name in kebab case. Nothing is read for an `a` that is the last word.
fn name_need(name: &str) -> usize {
    if name == "a" || name.ends_with("-a") {
        return name.len().saturating_sub(1);
    }
    text_need(name)
}

// Adds one, as far as there are numbers.
fn add_one(count: &mut usize) {
    *count = count.saturating_add(1);
}

impl Needs {
    /// What a whole component needs.
    pub(crate) fn of(alloc: Global, tree: &ComponentTree) -> Result<Needs, AllocError> {
        let mut needs = Needs {
            least_types: usize::MAX,
            least_imports: usize::MAX,
            least_funcs: usize::MAX,
            least_sections: usize::MAX,
            ..Needs::default()
        };
        let mut opens = Nest::new(alloc, Own::default());
        let mut steps = Steps::new(alloc, tree);
        while let Some(step) = steps.next()? {
            needs.add_extent(opens.depth(), step);
            needs.add_step(&mut opens.own, step);
            match step {
                Step::Begin(Contents::Parts(_)) => opens.enter(Own::default())?,
                Step::End(Contents::Parts(_)) if opens.depth() > 1 => opens.leave(),
                _ => {}
            }
        }
        Ok(needs)
    }

    fn add_name(&mut self, name: &str) {
        self.name = self.name.max(name_need(name));
    }

    fn add_text(&mut self, need: usize) {
        self.name = self.name.max(need);
    }

    fn add_labels<T: Labelled>(&mut self, items: &[T]) {
        for item in items {
            self.add_name(item.label());
        }
    }

    fn add_defined(&mut self, ty: &DefinedType) {
        match ty {
            DefinedType::Record(ty) => self.add_labels(&ty.fields),
            DefinedType::Variant(ty) => self.add_labels(&ty.cases),
            DefinedType::Flags(ty) => self.add_labels(&ty.fields),
            DefinedType::Enum(ty) => self.add_labels(&ty.variants),
            DefinedType::Primitive(_)
            | DefinedType::List(_)
            | DefinedType::Tuple(_)
            | DefinedType::Option(_)
            | DefinedType::Result(_) => {}
        }
    }

    // The names of a module type after what the canonical ABI asks for, which is not read.
    fn add_texts(&mut self, decls: &[ModuleNode]) {
        for decl in after_front(decls) {
            match decl {
                ModuleNode::Import { module, name, .. } => {
                    self.add_text(module.len());
                    self.add_text(text_need(name));
                }
                ModuleNode::Export { name, .. } => self.add_text(text_need(name)),
                ModuleNode::Func(_) | ModuleNode::OuterAlias { .. } => {}
            }
        }
    }

    fn add_values(&mut self, values: &[ValType]) {
        for value in values {
            match value {
                ValType::I32 | ValType::I64 => {}
                ValType::F32 | ValType::F64 => self.floats = true,
                ValType::V128 => self.simd = true,
                ValType::Ref(_) => self.references = true,
            }
        }
    }

    fn add_function(&mut self, ty: &FuncType) {
        self.add_values(&ty.params);
        self.add_values(&ty.results);
        self.multi_value |= ty.results.len() > 1;
    }

    fn add_entity(&mut self, ty: &EntityType) {
        match ty {
            EntityType::Func(_) | EntityType::Memory(_) => {}
            EntityType::Table(table) => self.references |= table.element_type != RefType::FuncRef,
            EntityType::Global(global) => self.add_values(&[global.val_type]),
            EntityType::Tag(_) => self.exceptions = true,
        }
    }

    fn add_module(&mut self, decls: &[ModuleNode]) {
        let mut types = 0;
        let mut kinds = [0usize; 5];
        for decl in decls {
            match decl {
                ModuleNode::Func(ty) => {
                    add_one(&mut types);
                    self.add_function(ty);
                }
                ModuleNode::OuterAlias { .. } => add_one(&mut types),
                ModuleNode::Import { entity, .. } | ModuleNode::Export { entity, .. } => {
                    let kind = entity.kind() as usize;
                    kinds[kind] = kinds[kind].saturating_add(1);
                    self.kinds[kind] = self.kinds[kind].max(kinds[kind]);
                    self.add_entity(entity);
                }
            }
        }
        self.types = self.types.max(types);
    }

    // A core type, and its extent.
    fn add_core_type(&mut self, ty: &CoreNode) -> Extent {
        match ty {
            CoreNode::Func(ty) => self.add_function(ty),
            CoreNode::Module(decls) => {
                self.add_module(decls);
                self.add_texts(decls);
            }
        }
        Extent::of_core(ty)
    }

    // A type, and its extent.
    #[cycle(types)]
    fn add_type(&mut self, ty: &TypeNode) -> Extent {
        match ty {
            TypeNode::Defined(ty) => {
                self.add_defined(ty);
                Extent::of_members(defined_size(ty), 0)
            }
            TypeNode::Func(ty) => {
                self.add_labels(&ty.params);
                let results = usize::from(ty.result.is_some());
                Extent::of_members(ty.params.len().saturating_add(results), 2)
            }
            TypeNode::Component(decls) | TypeNode::Instance(decls) => self.add_decls(decls),
        }
    }

    #[cycle(types)]
    fn add_decls(&mut self, decls: &[DeclNode]) -> Extent {
        let mut extent = Extent::of_members(0, 2);
        for decl in decls {
            extent = extent.with(match decl {
                DeclNode::Core(ty) => self.add_core_type(ty),
                DeclNode::Type(ty) => self.add_type(ty).nested(),
                DeclNode::Import { name, .. } | DeclNode::Export { name, .. } => {
                    self.add_name(name);
                    Extent::default()
                }
                DeclNode::TypeAlias { .. } | DeclNode::CoreTypeAlias { .. } => Extent::default(),
            });
        }
        extent
    }

    // What a step in a component that deep begins, by its extent.
    fn add_extent(&mut self, depth: usize, step: Step<'_>) {
        let extent = match step {
            Step::CoreType(ty) => self.add_core_type(ty),
            Step::Type(ty) => self.add_type(ty),
            _ => Extent::default(),
        };
        self.type_size = self.type_size.max(extent.need);
        self.depth = self.depth.max(depth.saturating_add(extent.depth));
    }

    fn add_import(&mut self, own: &mut Own, to: ComponentTypeRef) {
        add_one(&mut own.imports);
        match to {
            ComponentTypeRef::Module(_) => add_one(&mut self.modules),
            ComponentTypeRef::Func(_) => add_one(&mut own.funcs),
            ComponentTypeRef::Component(_) => add_one(&mut self.components),
            ComponentTypeRef::Instance(_) => add_one(&mut self.instances),
            ComponentTypeRef::TypeEq(_) => {}
        }
    }

    // A step in a component that has these before it.
    fn add_step(&mut self, own: &mut Own, step: Step<'_>) {
        if let Step::Custom(_) | Step::CoreModule(_) | Step::Begin(_) = step {
            add_one(&mut own.sections);
        }
        match step {
            Step::CoreModule(_) => add_one(&mut self.modules),
            Step::Begin(Contents::Parts(_)) => add_one(&mut self.components),
            Step::End(Contents::Parts(_)) => self.end(own),
            // If `max_exports` is 0, no export section is offered, not even an empty one.
            Step::Begin(Contents::Exports(_)) => self.exports = self.exports.max(1),
            Step::Custom(_) | Step::Begin(_) | Step::End(_) => {}
            Step::CoreType(_) => add_one(&mut own.core_types),
            Step::Type(_) => add_one(&mut own.types),
            Step::Canon(_) => add_one(&mut own.funcs),
            Step::Import(import) => {
                self.add_name(&import.name);
                self.add_import(own, import.to);
            }
            Step::Export(export) => {
                self.add_name(&export.name);
                add_one(&mut own.exports);
            }
        }
    }

    // The end of a component that has these.
    fn end(&mut self, own: &Own) {
        self.types = self.types.max(own.types).max(own.core_types);
        self.imports = self.imports.max(own.imports);
        self.exports = self.exports.max(own.exports);
        self.funcs = self.funcs.max(own.funcs);
        self.least_types = self.least_types.min(own.types);
        self.least_imports = self.least_imports.min(own.imports);
        self.least_funcs = self.least_funcs.min(own.funcs);
        self.least_sections = self.least_sections.min(own.sections);
    }
}
