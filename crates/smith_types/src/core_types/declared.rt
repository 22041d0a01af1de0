//! A module type that is made: its own types so far, and its declarations.

ghost use Rattle.std.specs.Prelude.{◌≡◌, ◌<◌, [], ◌∷◌, ◌++◌, map, length, nat_lt, Some, slice_get, OnOk, IfOk, IfErr};
ghost use Rattle.smith_format.specs.Shown.{shown_func};
ghost use Rattle.smith_syntax.specs.Entries.{declares};
ghost use Rattle.smith_types.specs.MakingCore.{KeepsDeclared, shown_funcs};
ghost use Rattle.smith_syntax.specs.ModuleTypes.{is_tag_type};
ghost use Rattle.smith_syntax.specs.Places.{places};
ghost use Rattle.smith_syntax.specs.Shown.{shown_decl};

use crate::core_types::counted::CountedDefs;
use smith_format::FuncType;
use smith_input::Error;
use smith_syntax::ModuleTypeDef;
use std::rc::Rc;

// A module type so far: the function types that it declares or that its aliases name, and its declarations.
#[derive(Drop)]
pub(crate) struct Declared {
    pub(crate) own: Vec<Rc<FuncType>>,
    pub(crate) counted: CountedDefs,
}

// Is there a type that a tag may have?
pub(crate) fn has_tag_type(own: &[Rc<FuncType>]) -> bool
    ensures { result ≡ nat_lt 0 (length (places is_tag_type 0 (shown_funcs own.now))) }
{
    for ty in own {
        if ty.results.is_empty() {
            return true;
        }
    }
    false
}

// How many types a tag may have: those without results.
pub(crate) fn tag_type_count(own: &[Rc<FuncType>]) -> usize
    ensures { result ≡ length (places is_tag_type 0 (shown_funcs own.now)) }
{
    let mut count = 0;
    for ty in own {
        if ty.results.is_empty() {
            count += 1;
        }
    }
    count
}

// The index of one of them, which are counted from 0.
pub(crate) fn tag_type_at(own: &[Rc<FuncType>], rank: usize) -> u32
    requires few { length own.now < 1000 }
    requires there { rank < length (places is_tag_type 0 (shown_funcs own.now)) }
    ensures { slice_get (places is_tag_type 0 (shown_funcs own.now)) rank ≡ Some result }
{
    let mut left = rank;
    for i in 0..own.len() {
        if own[i].results.is_empty() {
            if left == 0 {
                return i as u32;
            }
            left -= 1;
        }
    }
    unreachable!()
}

// Declares a function type.
#[inline(always)]
pub(crate) fn declare(declared: &mut Declared, ty: Rc<FuncType>) -> Result<(), Error>
    ensures own { IfOk result (λ _. shown_funcs declared.new.own.items
        ≡ shown_funcs declared.old.own.items ++ shown_func ty.value ∷ []) }
    ensures defs { IfOk result (λ _. map shown_decl declared.new.counted.defs.items
        ≡ map shown_decl declared.old.counted.defs.items ++ declares (shown_func ty.value) ∷ []) }
    ensures kept { (around : _) → KeepsDeclared around declared.old → OnOk result (KeepsDeclared around declared.new) }
    ensures memory { IfErr result (λ e. e ≡ Error.OutOfMemory) }
{
    let shared = ty.clone()?;
    declared.own.push(shared)?;
    declared.counted.push(ModuleTypeDef::FuncDef(ty))?;
    Ok(())
}
