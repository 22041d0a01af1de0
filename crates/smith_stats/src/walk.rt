//! A walk over a component's nodes, which adds each to a tally.

use crate::labels::{
    canon_label, contents_label, core_val_label, entity_label, ref_label, type_label, val_label,
};
use crate::tally::{Tally, increase};
use smith_core::{FuncType as CoreFuncType, ValType};
use smith_read::{Contents, CoreNode, DeclNode, MOST_DEPTH, ModuleNode, Step, Steps, TypeNode};
use smith_syntax::{ComponentValType, DefinedType, FuncType, Valued};
use std::alloc::AllocError;

// Where the imports and the exports of a type are.
#[derive(Clone, Copy)]
struct Places {
    declarations: &'static str,
    imports: &'static str,
    exports: &'static str,
}

const OF_COMPONENT_TYPE: Places = Places {
    declarations: "component types",
    imports: "imports of component types",
    exports: "exports of component types",
};

const OF_INSTANCE_TYPE: Places = Places {
    declarations: "instance types",
    imports: "imports of instance types",
    exports: "exports of instance types",
};

const OF_MODULE_TYPE: Places = Places {
    declarations: "module types",
    imports: "imports of module types",
    exports: "exports of module types",
};

// The nodes that sections are made of. None that was read is deeper than `MOST_DEPTH`.
impl Tally {
    /// All steps of a component.
    pub(crate) fn add_steps(&mut self, mut steps: Steps<'_>) -> Result<(), AllocError> {
        let mut level = 0;
        self.add_level(&mut level);
        while let Some(step) = steps.next()? {
            self.add_step(step, &mut level)?;
        }
        Ok(())
    }

    // A component that is inside that many others.
    fn add_level(&mut self, level: &mut usize) {
        increase(level, 1);
        increase(&mut self.components, 1);
        self.depth = self.depth.max(*level);
    }

    fn add_step(&mut self, step: Step<'_>, level: &mut usize) -> Result<(), AllocError> {
        match step {
            Step::Begin(contents) => {
                if let Contents::Parts(_) = contents {
                    self.add_level(level);
                }
                self.add_one("components", contents_label(contents))
            }
            Step::End(Contents::Parts(_)) => {
                *level = level.saturating_sub(1);
                Ok(())
            }
            Step::End(_) => Ok(()),
            Step::Custom(_) => self.add_one("components", "custom section"),
            Step::CoreModule(_) => self.add_one("components", "core module"),
            Step::CoreType(ty) => {
                increase(&mut self.entries, 1);
                self.add_core_type("sections of core types", ty)
            }
            Step::Type(ty) => {
                increase(&mut self.entries, 1);
                self.add_type("sections of types", ty, MOST_DEPTH)
            }
            Step::Canon(canon) => self.add_entry(
                "sections of canonical functions",
                canon_label(canon),
            ),
            Step::Import(import) => self.add_entry("sections of imports", ref_label(import.to)),
            Step::Export(_) => self.add_entry("sections of exports", "function"),
        }
    }

    // An entry of a section that is one thing of that sort.
    fn add_entry(&mut self, within: &'static str, sort: &'static str) -> Result<(), AllocError> {
        increase(&mut self.entries, 1);
        self.add_one(within, sort)
    }

    #[cycle(adding)]
    fn add_type(
        &mut self,
        within: &'static str,
        ty: &TypeNode,
        depth: u32,
    ) -> Result<(), AllocError> {
        let label = type_label(ty);
        self.add_one(within, label)?;
        increase(self.types.entry(label)?.or_insert(0), 1);
        match ty {
            TypeNode::Defined(ty) => self.add_members(ty),
            TypeNode::Func(ty) => self.add_function(ty),
            TypeNode::Component(decls) => self.add_decls(OF_COMPONENT_TYPE, decls, depth),
            TypeNode::Instance(decls) => self.add_decls(OF_INSTANCE_TYPE, decls, depth),
        }
    }

    #[cycle(adding)]
    fn add_decls(
        &mut self,
        places: Places,
        decls: &[DeclNode],
        depth: u32,
    ) -> Result<(), AllocError> {
        for decl in decls {
            self.add_decl(places, decl, depth)?;
        }
        Ok(())
    }

    #[cycle(adding)]
    fn add_decl(&mut self, places: Places, decl: &DeclNode, depth: u32) -> Result<(), AllocError> {
        let within = places.declarations;
        match decl {
            DeclNode::Core(ty) => self.add_core_type(within, ty),
            DeclNode::Type(ty) if depth > 0 => self.add_type(within, ty, depth - 1),
            DeclNode::Type(_) => Ok(()),
            DeclNode::TypeAlias { .. } => self.add_one(within, "outer alias of a type"),
            DeclNode::CoreTypeAlias { .. } => self.add_one(within, "outer alias of a core type"),
            DeclNode::Import { to, .. } => self.add_one(places.imports, ref_label(*to)),
            DeclNode::Export { to, .. } => self.add_one(places.exports, ref_label(*to)),
        }
    }

    fn add_members(&mut self, ty: &DefinedType) -> Result<(), AllocError> {
        match ty {
            DefinedType::Primitive(_) => Ok(()),
            DefinedType::Record(ty) => self.add_values("records", &ty.fields),
            DefinedType::Variant(ty) => self.add_values("variants", &ty.cases),
            DefinedType::List(ty) => self.add_val("lists", Some(ty.elem_ty)),
            DefinedType::Tuple(ty) => self.add_values("tuples", &ty.fields),
            DefinedType::Flags(ty) => self.add_many("flags", "name", ty.fields.len()),
            DefinedType::Enum(ty) => self.add_many("enums", "name", ty.variants.len()),
            DefinedType::Option(ty) => self.add_val("options", Some(ty.inner_ty)),
            DefinedType::Result(ty) => {
                self.add_val("results", ty.ok_ty)?;
                self.add_val("errors of results", ty.err_ty)
            }
        }
    }

    fn add_function(&mut self, ty: &FuncType) -> Result<(), AllocError> {
        self.add_values("parameters of functions", &ty.params)?;
        self.add_val("results of functions", ty.result)
    }

    fn add_val(
        &mut self,
        within: &'static str,
        ty: Option<ComponentValType>,
    ) -> Result<(), AllocError> {
        self.add_one(within, val_label(ty))
    }

    fn add_values<T: Valued>(
        &mut self,
        within: &'static str,
        members: &[T],
    ) -> Result<(), AllocError> {
        for member in members {
            self.add_val(within, member.value())?;
        }
        Ok(())
    }

    fn add_core_type(&mut self, within: &'static str, ty: &CoreNode) -> Result<(), AllocError> {
        match ty {
            CoreNode::Func(ty) => {
                self.add_one(within, "core function")?;
                self.add_core_function(ty)
            }
            CoreNode::Module(decls) => {
                self.add_one(within, "core module")?;
                self.add_module_decls(decls)
            }
        }
    }

    fn add_module_decls(&mut self, decls: &[ModuleNode]) -> Result<(), AllocError> {
        let Places {
            declarations,
            imports,
            exports,
        } = OF_MODULE_TYPE;
        for decl in decls {
            match decl {
                ModuleNode::Func(ty) => {
                    self.add_one(declarations, "core function")?;
                    self.add_core_function(ty)?;
                }
                ModuleNode::OuterAlias { .. } => {
                    self.add_one(declarations, "outer alias of a core type")?;
                }
                ModuleNode::Import { entity, .. } => self.add_one(imports, entity_label(entity))?,
                ModuleNode::Export { entity, .. } => self.add_one(exports, entity_label(entity))?,
            }
        }
        Ok(())
    }

    fn add_core_function(&mut self, ty: &CoreFuncType) -> Result<(), AllocError> {
        self.add_core_values("parameters of core functions", &ty.params)?;
        self.add_core_values("results of core functions", &ty.results)
    }

    fn add_core_values(
        &mut self,
        within: &'static str,
        types: &[ValType],
    ) -> Result<(), AllocError> {
        for ty in types {
            self.add_one(within, core_val_label(*ty))?;
        }
        Ok(())
    }
}
