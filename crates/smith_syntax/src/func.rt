//! Function types of a component (Explainer.md, type definitions).

ghost use Rattle.std.specs.Prelude.{◌≡◌, IfOk, IfErr, is_some};
ghost use Rattle.smith_syntax.specs.Flat.{flat_value, is_scalar};

use crate::types::{ComponentValType, PrimitiveValType};
use smith_input::Error;
use std::alloc::Global;
use std::hash::{Hash, Hasher};
use std::marker::Model;

/// The type of a function: at most 16 parameters, each with a name and a type, and a result or none. Contracts see its
/// signature: the bytes of each name with its type, and the type of the result.
#[derive(Debug, Drop)]
pub struct FuncType {
    pub params: Vec<(String, ComponentValType)>,
    pub result: Option<ComponentValType>,
}

impl Model for FuncType {
    ghost use Rattle.smith_syntax.specs.Entries.{Signature};
    ghost use Rattle.smith_syntax.specs.Signature.{signature};

    ghost Value = { Signature };

    ghost view = { λ f. signature f.params.items f.result };
}

/// Two function types are equal exactly if their signatures are.
impl PartialEq for FuncType {
    ghost use Rattle.smith_syntax.specs.SameSignature.{same_signature, same_signature_per};

    ghost eq = { same_signature };

    ghost laws = { same_signature_per };

    fn eq(&self, other: &FuncType) -> bool {
        self.params == other.params && self.result == other.result
    }
}

impl Eq for FuncType {
    ghost use Rattle.smith_syntax.specs.SameSignature.{same_signature_equiv};

    ghost laws = { same_signature_equiv };
}

impl Hash for FuncType {
    ghost use Rattle.smith_syntax.specs.SameSignature.{signature_input, signature_input_respects};

    ghost hash_input = { signature_input };

    ghost respects_eq = { signature_input_respects };

    fn hash<H: Hasher>(&self, state: &mut H) {
        self.params.hash(state);
        self.result.hash(state);
    }
}

// Is it one that has a core value type?
fn is_scalar_value(ty: ComponentValType) -> bool
    ensures { result ≡ is_some (flat_value ty) }
{
    match ty {
        ComponentValType::Primitive(PrimitiveValType::String) | ComponentValType::Indexed(_) =>
            false,
        ComponentValType::Primitive(_) => true,
    }
}

impl FuncType {
    /// Whether all parameters are primitives other than a string, and there is a result that is one too.
    pub fn is_scalar(&self) -> bool
        ensures { result ≡ is_scalar self.now }
    {
        for (_, ty) in &self.params {
            if !is_scalar_value(*ty) {
                return false;
            }
        }
        match self.result {
            Some(ty) => is_scalar_value(ty),
            None => false,
        }
    }

    /// An equal value. It fails only when out of memory.
    pub fn copied(&self, alloc: Global) -> Result<FuncType, Error>
        ensures value { IfOk result (λ f. f ≡ self.now) }
        ensures memory { IfErr result (λ e. e ≡ Error.OutOfMemory) }
    {
        let mut params = Vec::with_capacity(alloc, self.params.len())?;
        for (name, ty) in &self.params {
            params.push((String::from_str(alloc, name.as_str())?, *ty))?;
        }
        Ok(FuncType {
            params,
            result: self.result,
        })
    }
}
