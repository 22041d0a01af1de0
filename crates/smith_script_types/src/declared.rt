//! What a module type has before a declaration of it.

ghost use Rattle.std.specs.Prelude.{◌≡◌, map};
ghost use Rattle.smith_read.specs.Nodes.{shown_module_node};
ghost use Rattle.smith_script_types.specs.Tables.{Keeps, functions_in};

use crate::tables::{Tables, count_from, declared_type};
use smith_format::{Config, ExportKind, FuncType};
use smith_input::Error;
use smith_read::{CoreNode, ModuleNode};
use smith_scopes::NodeScopes;
use std::alloc::Global;

/// The declarations of a module type before one, and what is kept of them.
#[derive(Drop)]
pub(crate) struct Declared<'a> {
    pub(crate) decls: &'a [ModuleNode],
    pub(crate) tables: Tables<'a>,
    ghost kept: { Keeps tables (functions_in tables.own.items) (map shown_module_node decls.now) },
}

impl<'a> Declared<'a> {
    ghost use Rattle.std.specs.Prelude.{◌∷◌, ◌++◌, [], length, nat_lt, IfOk, IfErr};
    ghost use Rattle.smith_syntax.specs.ModuleTypes.{adds, count_of_kind, module_export_names, names_from};
    ghost use Rattle.smith_tree.specs.CoreTypeOffers.{allows_function, allows_type, undeclared, with_decl, with_front};
    ghost use Rattle.smith_scopes.specs.NodeScopes.{own_in};
    ghost use Rattle.smith_input.specs.declared.error.Error.TheVariants.{OutOfMemory};
    ghost use Rattle.smith_script_types.specs.Places.{so_far};
    ghost use Rattle.smith_script_types.specs.Tables.{function_in};

    /// What the canonical ABI asks in front: none of these declarations is an outer alias.
    pub(crate) fn in_front(alloc: Global, decls: &'a [ModuleNode]) -> Result<Declared<'a>, Error>
        ensures front { IfOk result (λ s. so_far s ≡ with_front (undeclared 0) (map shown_module_node decls.now)) }
        ensures memory { IfErr result (λ e. e ≡ OutOfMemory) }
    {
        let mut tables = Tables::new(alloc);
        for decl in decls {
            tables.add(declared_type(decl), decl)?;
        }
        Ok(Declared { decls, tables })
    }

    /// Is one more of a kind below the limit?
    pub(crate) fn allows(&self, kind: ExportKind, max: usize) -> bool
        ensures { result ≡ nat_lt (count_of_kind kind (so_far self.now).decls) max }
    {
        self.tables.kinds[kind as usize] < max
    }

    /// Is one more type below the limit?
    pub(crate) fn allows_type(&self, config: &Config) -> bool
        ensures { result ≡ allows_type config.now (so_far self.now) }
    {
        self.tables.own.len() < config.max_types
    }

    /// Is one more function below the limit?
    pub(crate) fn allows_function(&self, config: &Config) -> bool
        ensures { result ≡ allows_function config.now (so_far self.now) }
    {
        self.allows(ExportKind::Func, config.max_funcs)
    }

    /// How many exports there are.
    pub(crate) fn exports(&self) -> usize
        ensures { result ≡ length (module_export_names (so_far self.now).decls) }
    {
        self.tables.exports
    }

    /// How many imports there are from that module.
    pub(crate) fn imports_from(&self, from: &str) -> usize
        ensures { result ≡ length (names_from from.now (so_far self.now).decls) }
    {
        count_from(&self.tables.imports, from)
    }

    // The function type that a declaration adds to the module type's own.
    fn added(&self, around: &NodeScopes<'a>, decl: &'a ModuleNode) -> Option<&'a FuncType>
        ensures { function_in result
            ≡ adds (own_in around.now).core_types (so_far self.now).own (shown_module_node decl.now) }
    {
        match decl {
            ModuleNode::OuterAlias { count: 0, index } => {
                self.tables.own.get(*index as usize).copied()
            }
            ModuleNode::OuterAlias { count: 1, index } => match around.core_type_at(*index)? {
                CoreNode::Func(ty) => Some(ty),
                CoreNode::Module(_) => None,
            },
            _ => declared_type(decl),
        }
    }

    /// With one more declaration, which is the last of these.
    pub(crate) fn with(
        self,
        around: &NodeScopes<'a>,
        decl: &'a ModuleNode,
        decls: &'a [ModuleNode],
    ) -> Result<Declared<'a>, Error>
        requires { map shown_module_node decls.now ≡ (so_far self).decls ++ shown_module_node decl.now ∷ [] }
        ensures more { IfOk result (λ s. so_far s
            ≡ with_decl (own_in around.now).core_types (so_far self.entry) (shown_module_node decl.now)) }
        ensures memory { IfErr result (λ e. e ≡ OutOfMemory) }
    {
        let added = self.added(around, decl);
        let Declared { mut tables, .. } = self;
        tables.add(added, decl)?;
        Ok(Declared { decls, tables })
    }
}
