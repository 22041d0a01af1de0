//! Core modules (core specification, Modules).

ghost use Rattle.std.specs.Prelude.{◌≡◌, ◌↔◌, ◌⊎◌, ◌+◌, ◌≤◌, IsOk, IfOk, IfErr, IsErrOf, None, Some};
ghost use Rattle.std.specs.Vec.{vec_len, vec_capacity};
ghost use Rattle.smith_format.specs.Writing.{Appends, Measures, Puts, piece_length};
ghost use Rattle.smith_core.specs.Module.{module_text};
ghost use Rattle.smith_core.specs.Parts.{Agree};
ghost use Rattle.smith_core.specs.Kept.{parts_in, shown};

mod agree;
mod encode;
mod parts;
mod sections;
mod segments;
mod stand_in;
mod types;
mod write;

pub use parts::ModuleParts;
pub use segments::{
    Code, DataSegment, DataSegmentKind, ElementKind, ElementSegment, Elements, Instructions, Offset,
};
use smith_format::settled;
use smith_input::Error;
use stand_in::StandIn;
pub use stand_in::put_stand_in;
use std::alloc::Global;
use std::marker::Model;
pub use types::{CompositeType, FieldType, StorageType, SubType};

// What a module is kept as.
#[derive(Debug, Drop)]
enum Kept {
    // A generated module has few parts, and is moved several times.
    StandIn(StandIn),
    Parts(Box<ModuleParts>),
}

/// A core module. Contracts see it as its parts, which agree with one another.
#[derive(Debug, Drop)]
pub struct Module {
    kept: Kept,
    // The length of its bytes, unless it is too long.
    length: Option<u64>,
}

impl Model for Module {
    ghost use Rattle.smith_core.specs.declared.module.parts.ModuleParts.{ModuleParts};
    ghost use Rattle.smith_core.specs.contracts.module.parts.ModuleParts as parts_of;
    ghost use Rattle.std.specs.Coded.{codes};
    ghost use Rattle.std.specs.Prelude.{◌≡◌, None, MatchOption};
    ghost use Rattle.smith_format.specs.Writing.{Takes};
    ghost use Rattle.smith_core.specs.Module.{module_text};
    ghost use Rattle.smith_core.specs.Parts.{Agree};
    ghost use Rattle.smith_core.specs.Kept.{parts_in};

    ghost Value = { ModuleParts };

    ghost coded = { Prim.hlevel (codes, parts_of.the_row.coded) };

    ghost view = { λ m. parts_in m.kept };

    ghost invariant = { λ m. Agree (parts_in m.kept) × MatchOption m.length (module_text (parts_in m.kept) ≡ None)
        (λ n. Takes n (module_text (parts_in m.kept))) };
}

impl Kept {
    // Puts the module's bytes at the end of a buffer.
    fn put(&self, out: &mut Vec<u8>) -> Result<(), Error>
        requires { Agree (parts_in self.now) }
        ensures { Puts result out.old out.new (module_text (parts_in self.now)) }
    {
        match self {
            Kept::StandIn(stand_in) => stand_in.put(out),
            Kept::Parts(parts) => parts.put(out),
        }
    }

    fn measure(&self) -> Result<u64, Error>
        requires { Agree (parts_in self.now) }
        ensures { Measures result (module_text (parts_in self.now)) }
    {
        match self {
            Kept::StandIn(stand_in) => stand_in.measure(),
            Kept::Parts(parts) => parts.measure(),
        }
    }
}

impl Module {
    // The module of parts that agree.
    fn of(kept: Kept) -> Module
        requires { Agree (parts_in kept) }
        ensures { result ≡ parts_in kept }
    {
        let length = kept.measure().ok();
        Module { kept, length }
    }

    /// The module of these parts. It refuses exactly parts that disagree, with `PartsDisagree` and the parts as they
    /// were: if more functions, tables, memories or tags are defined than there are; if the groups do not hold each
    /// type once and in order; if a defined global is not there; or if a segment of functions, or an active one that
    /// names no table, is of another type than function references. It takes no memory.
    pub fn from_parts(parts: Box<ModuleParts>) -> Result<Module, (Error, Box<ModuleParts>)>
        ensures accepts { IsOk result ↔ Agree parts.value }
        ensures same { IfOk result (λ m. m ≡ parts.value) }
        ensures refuses { IfErr result (λ e. (e.0 ≡ Error.PartsDisagree) × (e.1 ≡ parts)) }
    {
        if !parts.agree() {
            return Err((Error::PartsDisagree, parts));
        }
        Ok(Module::of(Kept::Parts(parts)))
    }

    /// The same of parts that are in no box: it takes memory for one. Parts that agree are refused only if there is
    /// none, with `OutOfMemory` and the parts.
    pub fn from_unboxed(alloc: Global, parts: ModuleParts) -> Result<Module, (Error, ModuleParts)>
        ensures accepts { IsOk result → Agree parts }
        ensures same { IfOk result (λ m. m ≡ parts) }
        ensures refuses { IfErr result (λ e. ((e.0 ≡ Error.PartsDisagree) × (¬ Agree parts)
            ⊎ (e.0 ≡ Error.OutOfMemory) × Agree parts) × (e.1 ≡ parts)) }
    {
        if parts.agree() {
            match Box::new(alloc, parts) {
                Ok(boxed) => Ok(Module::of(Kept::Parts(boxed))),
                Err(failed) => Err((Error::OutOfMemory, failed.value)),
            }
        } else {
            Err((Error::PartsDisagree, parts))
        }
    }

    /// The length of the module's bytes. It is too long exactly if a length or a count written in them exceeds
    /// 4,294,967,295.
    pub fn measure(&self) -> Result<u64, Error>
        ensures { Measures result (module_text self.now) }
    {
        self.length.ok_or(Error::TooLong)
    }

    /// Appends the module's bytes.
    pub fn write(&self, out: &mut Vec<u8>) -> Result<(), Error>
        ensures { Appends result out.old out.new (module_text self.now) }
    {
        let start = out.len();
        let given = self.kept.put(out);
        settled(out, start, given)
    }

    // Puts the module's bytes into a buffer that has room for them, so that no memory is allocated.
    fn fill(&self, out: &mut Vec<u8>) -> Result<(), Error>
        requires spelled { ¬ (module_text self.now ≡ None) }
        requires room { vec_len out.old + piece_length (module_text self.now) ≤ vec_capacity out.old }
        ensures puts { Puts result out.old out.new (module_text self.now) }
        ensures done { IfErr result (λ e. ⊥) }
    {
        self.kept.put(out)
    }

    /// The module's bytes. Memory is allocated once, after they were measured.
    pub fn to_bytes(&self, alloc: Global) -> Result<Vec<u8>, Error>
        ensures written { IfOk result (λ v. module_text self.now ≡ Some v.items) }
        // A module is too long exactly if it has no bytes.
        ensures too_long { IsErrOf result Error.TooLong ↔ (module_text self.now ≡ None) }
        ensures errors { IfErr result (λ e. (e ≡ Error.TooLong) ⊎ (e ≡ Error.OutOfMemory)) }
    {
        let length = self.measure()?;
        let mut out = Vec::with_capacity(alloc, length as usize)?;
        self.fill(&mut out)?;
        Ok(out)
    }
}
