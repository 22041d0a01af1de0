//! A walk over a component's nodes, which finds each combination in it.

use crate::combination::{
    Chain, Combination, Origin, Part, Sort, Within, alias_origin, alias_part, core_sort,
    primitive_sort,
};
use crate::scopes::{Known, Scopes};
use smith_core::{EntityType, FuncType as CoreFuncType, ValType};
use smith_read::{
    ComponentTree, Contents, CoreNode, DeclNode, MOST_DEPTH, ModuleNode, Step, Steps, TypeNode,
};
use smith_syntax::{ComponentTypeRef, ComponentValType, DefinedType, FuncType, Valued};
use smith_tree::Func;
use std::alloc::{AllocError, Global};
use std::collections::BTreeSet;

// Imports or exports: what they are called, and how what they are of comes into the scope.
#[derive(Clone, Copy)]
struct Direction {
    part: Part,
    of_equal: Part,
    origin: Origin,
    origin_of_equal: Origin,
}

const IMPORT: Direction = Direction {
    part: Part::Import,
    of_equal: Part::ImportEqual,
    origin: Origin::Imported,
    origin_of_equal: Origin::Equal,
};

const EXPORT: Direction = Direction {
    part: Part::Export,
    of_equal: Part::ExportEqual,
    origin: Origin::Exported,
    origin_of_equal: Origin::Exported,
};

/// Each combination in a component, once.
pub fn combinations(
    alloc: Global,
    component: &ComponentTree,
) -> Result<BTreeSet<Combination>, AllocError> {
    let mut combining = Combining {
        scopes: Scopes::new(alloc),
        found: BTreeSet::new(alloc),
    };
    combining.add_steps(Steps::new(alloc, component))?;
    Ok(combining.found)
}

// What is found so far, and the scopes that are open.
#[derive(Drop)]
struct Combining {
    scopes: Scopes,
    found: BTreeSet<Combination>,
}

// The nodes that sections are made of. None that was read is deeper than `MOST_DEPTH`.
impl Combining {
    fn add_steps(&mut self, mut steps: Steps<'_>) -> Result<(), AllocError> {
        self.scopes.begin(Within::Root)?;
        while let Some(step) = steps.next()? {
            self.add_step(step)?;
        }
        Ok(())
    }

    // A thing that refers to what is known.
    fn add(&mut self, part: Part, known: Known) -> Result<(), AllocError> {
        let combination = Combination {
            within: self.scopes.within(),
            around: self.scopes.around(),
            part,
            sort: known.sort,
            origin: known.origin,
            chain: known.chain,
        };
        self.found.insert(combination)?;
        Ok(())
    }

    fn add_step(&mut self, step: Step<'_>) -> Result<(), AllocError> {
        match step {
            Step::Begin(Contents::Parts(_)) => {
                self.add(Part::Component, Known::plain(Sort::Nothing))?;
                self.scopes.begin(Within::Nested)
            }
            Step::End(Contents::Parts(_)) => {
                let _chain = self.scopes.end();
                Ok(())
            }
            Step::Begin(_) | Step::End(_) => Ok(()),
            Step::Custom(_) => self.add(Part::CustomSection, Known::plain(Sort::Nothing)),
            Step::CoreModule(_) => self.add(Part::CoreModule, Known::plain(Sort::Nothing)),
            Step::CoreType(ty) => self.add_core_type(ty),
            Step::Type(ty) => self.add_type(ty, MOST_DEPTH),
            Step::Canon(canon) => self.add_canon(canon),
            Step::Import(import) => self.add_extern(IMPORT, import.to),
            Step::Export(export) => {
                let known = self.scopes.function_at(export.func_index);
                self.add(Part::Export, known)?;
                self.scopes.add_function(known.from(Origin::Exported))
            }
        }
    }

    fn add_canon(&mut self, canon: &Func) -> Result<(), AllocError> {
        match canon {
            Func::CanonLift {
                func_ty,
                core_func_index,
            } => {
                let core = self.scopes.core_function_at(*core_func_index);
                self.add(Part::Lift, core)?;
                let ty = self.scopes.type_at(0, *func_ty);
                self.add(Part::LiftType, ty)?;
                self.scopes.add_function(ty.from(Origin::Declared))
            }
            Func::CanonLower { func_index } => {
                let known = self.scopes.function_at(*func_index);
                self.add(Part::Lower, known)?;
                // It is told by how the function came there that it lowers.
                let sort = Sort::CoreFunction;
                self.scopes.add_core_function(Known { sort, ..known })
            }
        }
    }

    // An import or an export of a type of the scope.
    fn add_extern(&mut self, direction: Direction, to: ComponentTypeRef) -> Result<(), AllocError> {
        let Direction {
            part,
            of_equal,
            origin,
            origin_of_equal,
        } = direction;
        match to {
            ComponentTypeRef::Module(index) => {
                let known = self.scopes.core_type_at(0, index);
                self.add(part, known)
            }
            ComponentTypeRef::Component(index) | ComponentTypeRef::Instance(index) => {
                let known = self.scopes.type_at(0, index);
                self.add(part, known)
            }
            ComponentTypeRef::Func(index) => {
                let known = self.scopes.type_at(0, index);
                self.add(part, known)?;
                self.scopes.add_function(known.from(origin))
            }
            ComponentTypeRef::TypeEq(index) => {
                let known = self.scopes.type_at(0, index);
                self.add(of_equal, known)?;
                self.scopes.add_type(known.from(origin_of_equal))
            }
        }
    }

    #[cycle(finding)]
    fn add_type(&mut self, ty: &TypeNode, depth: u32) -> Result<(), AllocError> {
        let known = match ty {
            TypeNode::Defined(ty) => self.add_defined(ty)?,
            TypeNode::Func(ty) => self.add_func_type(ty)?,
            TypeNode::Component(decls) => {
                let chain = self.add_decls(Within::ComponentType, decls, depth)?;
                Known::declared(Sort::Component, chain)
            }
            TypeNode::Instance(decls) => {
                let chain = self.add_decls(Within::InstanceType, decls, depth)?;
                Known::declared(Sort::Instance, chain)
            }
        };
        self.add(Part::Type, known)?;
        self.scopes.add_type(known)
    }

    // The declarations of a type, in a scope of their own. Returns the longest chain of its types.
    #[cycle(finding)]
    fn add_decls(
        &mut self,
        within: Within,
        decls: &[DeclNode],
        depth: u32,
    ) -> Result<Chain, AllocError> {
        self.scopes.begin(within)?;
        for decl in decls {
            self.add_decl(decl, depth)?;
        }
        Ok(self.scopes.end())
    }

    #[cycle(finding)]
    fn add_decl(&mut self, decl: &DeclNode, depth: u32) -> Result<(), AllocError> {
        match decl {
            DeclNode::Core(ty) => self.add_core_type(ty),
            DeclNode::Type(ty) if depth > 0 => self.add_type(ty, depth - 1),
            DeclNode::Type(_) => Ok(()),
            DeclNode::TypeAlias { count, index } => {
                let known = self.scopes.type_at(*count, *index);
                self.add(alias_part(*count), known)?;
                self.scopes.add_type(known.from(alias_origin(*count)))
            }
            DeclNode::CoreTypeAlias { count, index } => self.add_core_alias(*count, *index),
            DeclNode::Import { to, .. } => self.add_extern(IMPORT, *to),
            DeclNode::Export { to, .. } => self.add_extern(EXPORT, *to),
        }
    }

    fn add_core_alias(&mut self, count: u32, index: u32) -> Result<(), AllocError> {
        let known = self.scopes.core_type_at(count, index);
        self.add(alias_part(count), known)?;
        self.scopes.add_core_type(known.from(alias_origin(count)))
    }

    // The members of a type. Returns what the type is.
    fn add_defined(&mut self, ty: &DefinedType) -> Result<Known, AllocError> {
        let (sort, chain) = match ty {
            DefinedType::Primitive(ty) => (primitive_sort(*ty), Chain::None),
            DefinedType::Record(ty) => (Sort::Record, self.add_values(Part::Field, &ty.fields)?),
            DefinedType::Variant(ty) => (Sort::Variant, self.add_values(Part::Case, &ty.cases)?),
            DefinedType::List(ty) => {
                let chain = self.add_value(Part::Element, Some(ty.elem_ty))?;
                (Sort::List, chain)
            }
            DefinedType::Tuple(ty) => (Sort::Tuple, self.add_values(Part::Member, &ty.fields)?),
            DefinedType::Flags(_) => (Sort::Flags, Chain::None),
            DefinedType::Enum(_) => (Sort::Enum, Chain::None),
            DefinedType::Option(ty) => {
                let chain = self.add_value(Part::Content, Some(ty.inner_ty))?;
                (Sort::Option, chain)
            }
            DefinedType::Result(ty) => {
                let success = self.add_value(Part::Success, ty.ok_ty)?;
                let failure = self.add_value(Part::Failure, ty.err_ty)?;
                (Sort::Result, success.longer(failure))
            }
        };
        Ok(Known::declared(sort, chain))
    }

    fn add_func_type(&mut self, ty: &FuncType) -> Result<Known, AllocError> {
        let params = self.add_values(Part::Parameter, &ty.params)?;
        let result = self.add_value(Part::Result, ty.result)?;
        Ok(Known::declared(Sort::Function, params.longer(result)))
    }

    // A member of a type. Returns the chain of its value type.
    fn add_value(&mut self, part: Part, ty: Option<ComponentValType>) -> Result<Chain, AllocError> {
        let known = match ty {
            Some(ComponentValType::Primitive(ty)) => Known::plain(primitive_sort(ty)),
            Some(ComponentValType::Indexed(index)) => self.scopes.type_at(0, index),
            None => Known::plain(Sort::Nothing),
        };
        self.add(part, known)?;
        Ok(known.chain)
    }

    fn add_values<T: Valued>(&mut self, part: Part, members: &[T]) -> Result<Chain, AllocError> {
        let mut longest = Chain::None;
        for member in members {
            let chain = self.add_value(part, member.value())?;
            longest = longest.longer(chain);
        }
        Ok(longest)
    }

    fn add_core_type(&mut self, ty: &CoreNode) -> Result<(), AllocError> {
        match ty {
            CoreNode::Func(ty) => self.add_core_func_type(ty),
            CoreNode::Module(decls) => {
                self.scopes.begin(Within::ModuleType)?;
                for decl in decls {
                    self.add_module_decl(decl)?;
                }
                let known = Known::declared(Sort::CoreModule, self.scopes.end());
                self.add(Part::CoreType, known)?;
                self.scopes.add_core_type(known)
            }
        }
    }

    fn add_module_decl(&mut self, decl: &ModuleNode) -> Result<(), AllocError> {
        match decl {
            ModuleNode::Func(ty) => self.add_core_func_type(ty),
            ModuleNode::OuterAlias { count, index } => self.add_core_alias(*count, *index),
            ModuleNode::Import { entity, .. } => self.add_entity(Part::Import, entity),
            ModuleNode::Export { entity, .. } => self.add_entity(Part::Export, entity),
        }
    }

    fn add_core_func_type(&mut self, ty: &CoreFuncType) -> Result<(), AllocError> {
        self.add_core_values(Part::CoreParameter, &ty.params)?;
        self.add_core_values(Part::CoreResult, &ty.results)?;
        let known = Known::declared(Sort::CoreFunction, Chain::None);
        self.add(Part::CoreType, known)?;
        self.scopes.add_core_type(known)
    }

    fn add_core_values(&mut self, part: Part, types: &[ValType]) -> Result<(), AllocError> {
        for ty in types {
            self.add(part, Known::plain(core_sort(*ty)))?;
        }
        Ok(())
    }

    // What a module type imports or exports. A table and a global are there with the value type that they have.
    fn add_entity(&mut self, part: Part, entity: &EntityType) -> Result<(), AllocError> {
        let known = match entity {
            EntityType::Func(index) => self.scopes.core_type_at(0, *index),
            EntityType::Tag(tag) => {
                let ty = self.scopes.core_type_at(0, tag.func_type_idx);
                let sort = Sort::Tag;
                Known { sort, ..ty }
            }
            EntityType::Table(table) => {
                let element = core_sort(ValType::Ref(table.element_type));
                self.add(Part::Element, Known::plain(element))?;
                Known::plain(Sort::Table)
            }
            EntityType::Memory(_) => Known::plain(Sort::Memory),
            EntityType::Global(global) => {
                let content = core_sort(global.val_type);
                self.add(Part::Content, Known::plain(content))?;
                Known::plain(Sort::Global)
            }
        };
        self.add(part, known)
    }
}
