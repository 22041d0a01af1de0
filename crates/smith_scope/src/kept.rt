//! What is kept of the types and core types of a scope for a validator.

ghost use Rattle.std.specs.Prelude.{◌≡◌, [], ◌∷◌, ◌++◌, List, map, OnOk, IfOk, OnErr};
ghost use Rattle.smith_syntax.specs.Entries.{Entry};
ghost use Rattle.smith_syntax.specs.Scope.{with_core_type, with_type};
ghost use Rattle.smith_scope.specs.Kept.{AreKept, AreKeptIn, IsNew, core_sizes_in, marks_in};

use crate::entries::Entries;
use crate::offers::{Offers, Uses};
use crate::typed::{CoreTyped, TypeTree, Typed};
use smith_syntax::Mark;
use std::alloc::{AllocError, Global};

// The mark of each type, what each may be used for, and the size of each core type. A scope has them in a box, since
// few scopes keep any, and a scope is moved when it opens and closes.
#[derive(Drop)]
pub(crate) struct Kept {
    pub(crate) marks: Vec<Mark>,
    pub(crate) offers: Offers,
    pub(crate) core_sizes: Vec<u32>,
}

// Takes out what is kept, or makes it, with nothing in it, if there is none.
pub(crate) fn take_kept(
    kept: &mut Option<Box<Kept>>,
    alloc: Global,
) -> Result<Box<Kept>, AllocError>
    ensures marks { IfOk result (λ k. k.value.marks.items ≡ marks_in kept.old) }
    ensures types { IfOk result (λ k. (types : List Entry) → AreKeptIn kept.old types → AreKept k.value types) }
    ensures core_sizes { IfOk result (λ k. k.value.core_sizes.items ≡ core_sizes_in kept.old) }
    ensures err { OnErr result (kept.new ≡ kept.old) }
{
    match kept.take() {
        Some(kept) => Ok(kept),
        None => Ok(Box::new(alloc, Kept::new(alloc))?),
    }
}

impl Kept {
    fn new(alloc: Global) -> Kept
        ensures { IsNew result }
    {
        Kept {
            marks: Vec::new(alloc),
            offers: Offers::new(alloc),
            core_sizes: Vec::new(alloc),
        }
    }

    // Adds a type at the end of the scope. Each list has room before one of them grows. It is not inlined, so that a
    // scope in which nothing is kept does without its code.
    #[inline(never)]
    pub(crate) fn push_type<T: Typed, C: CoreTyped>(
        &mut self,
        entries: &mut Entries<T, C>,
        ty: T,
        mark: Mark,
    ) -> Result<(), AllocError>
        requires { AreKept self.old (map T.Tree.plain entries.old.types) }
        ensures kept { AreKept self.new (map T.Tree.plain entries.new.types) }
        ensures types { OnOk result (entries.new ≡ with_type entries.old (T.tree ty)) }
        ensures marks { OnOk result (self.new.marks.items ≡ self.old.marks.items ++ mark ∷ []) }
        ensures err { OnErr result ((entries.new ≡ entries.old) × (self.new.marks.items ≡ self.old.marks.items)) }
        ensures same_core_sizes { self.new.core_sizes ≡ self.old.core_sizes }
    {
        self.marks.reserve(1)?;
        self.offers.reserve()?;
        let index = entries.types_len();
        let uses = Uses::new(ty.tree().kind(), mark);
        entries.push_type(ty)?;
        self.offers.add(index, uses);
        self.marks.push_reserved(mark);
        Ok(())
    }

    // Adds a core type at the end of the scope. Each list has room before one of them grows.
    #[inline(never)]
    pub(crate) fn push_core_type<T: Typed, C: CoreTyped>(
        &mut self,
        entries: &mut Entries<T, C>,
        ty: C,
        size: u32,
    ) -> Result<(), AllocError>
        ensures core_types { OnOk result (entries.new ≡ with_core_type entries.old (C.tree ty)) }
        ensures core_sizes { OnOk result (self.new.core_sizes.items ≡ self.old.core_sizes.items ++ size ∷ []) }
        ensures same_core_types { OnErr result (entries.new ≡ entries.old) }
        ensures same_core_sizes { OnErr result (self.new.core_sizes.items ≡ self.old.core_sizes.items) }
        ensures same_marks { self.new.marks ≡ self.old.marks }
        ensures same_offers { self.new.offers ≡ self.old.offers }
    {
        self.core_sizes.reserve(1)?;
        entries.push_core_type(ty)?;
        self.core_sizes.push_reserved(size);
        Ok(())
    }
}
