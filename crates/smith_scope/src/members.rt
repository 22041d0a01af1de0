//! What a type of values or of functions is made of.

ghost use Rattle.std.specs.Prelude.{◌≡◌, ◌+◌, false, true, map, sum, flat_map, option_to_list};
ghost use Rattle.smith_syntax.specs.Marks.{declared_mark, narrower, narrowest, sizes, value_reach};
ghost use Rattle.smith_syntax.specs.Members.{is_nominal, members, signature_members};
ghost use Rattle.smith_syntax.specs.Shown.{shown_defined};
ghost use Rattle.smith_syntax.specs.Sizes.{capped, defined_size, maybe_size, signature_size, summed, value_size};

use crate::scope::Scope;
use crate::typed::{CoreTyped, Typed};
use smith_syntax::{ComponentValType, DefinedType, FuncType, Mark, Reach, Valued, size_sum};

// Value types: where all that has to be named for them is named, and the sum of their effective sizes.
#[derive(Clone, Copy, Debug)]
struct Parts {
    reach: Reach,
    size: u32,
}

impl Parts {
    // None, with that to begin the sum.
    fn new(size: u32) -> Parts
        ensures { result ≡ record { reach = Reach.Everywhere; size = size } }
    {
        Parts {
            reach: Reach::Everywhere,
            size,
        }
    }

    fn add(self, marks: &[Mark], ty: ComponentValType) -> Parts
        ensures reach { result.reach ≡ narrower self.reach (value_reach marks.now ty) }
        ensures size { result.size ≡ capped (self.size + value_size (sizes marks.now) ty) }
    {
        let (reach, size) = value_of(marks, ty);
        Parts {
            reach: self.reach.narrower(reach),
            size: size_sum(self.size, size),
        }
    }

    // One that may be missing, and adds nothing then.
    fn add_some(self, marks: &[Mark], ty: Option<ComponentValType>) -> Parts
        ensures reach { result.reach
            ≡ narrower self.reach (narrowest (map (value_reach marks.now) (option_to_list ty))) }
        ensures size { capped self.size ≡ self.size
            → result.size ≡ capped (self.size + sum (map (value_size (sizes marks.now)) (option_to_list ty))) }
    {
        match ty {
            Some(ty) => self.add(marks, ty),
            None => self,
        }
    }

    // One that may be missing, and counts as 1 then.
    fn add_maybe(self, marks: &[Mark], ty: Option<ComponentValType>) -> Parts
        ensures reach { result.reach
            ≡ narrower self.reach (narrowest (map (value_reach marks.now) (option_to_list ty))) }
        ensures size { result.size ≡ capped (self.size + maybe_size (sizes marks.now) ty) }
    {
        match ty {
            Some(ty) => self.add(marks, ty),
            None => Parts {
                reach: self.reach,
                size: size_sum(self.size, 1),
            },
        }
    }

    // The mark of a type that is made of these.
    fn plain(self) -> Mark
        ensures { result ≡ record { nominal = false; parts = self.reach; used = self.reach; size = self.size } }
    {
        Mark {
            nominal: false,
            parts: self.reach,
            used: self.reach,
            size: self.size,
        }
    }

    // The mark of a type that has to be named itself.
    fn nominal(self) -> Mark
        ensures { result ≡ record { nominal = true; parts = self.reach; used = Reach.Nowhere; size = self.size } }
    {
        Mark {
            nominal: true,
            parts: self.reach,
            used: Reach::Nowhere,
            size: self.size,
        }
    }
}

// Where all that has to be named for a value of that type is named, and its size.
fn value_of(marks: &[Mark], ty: ComponentValType) -> (Reach, u32)
    ensures reach { result.0 ≡ value_reach marks.now ty }
    ensures size { result.1 ≡ value_size (sizes marks.now) ty }
{
    match ty {
        ComponentValType::Primitive(_) => (Reach::Everywhere, 1),
        ComponentValType::Indexed(index) => match marks.get(index as usize) {
            Some(mark) => (mark.used, mark.size),
            None => (Reach::Everywhere, 1),
        },
    }
}

// The value types of members, with 1 to begin the sum. One that has none adds nothing.
fn parts_of<T: Valued>(marks: &[Mark], items: &[T]) -> Parts
    ensures reach { result.reach
        ≡ narrowest (map (value_reach marks.now) (flat_map (λ i. option_to_list (T.value i)) items.now)) }
    ensures size { result.size
        ≡ capped (summed (sizes marks.now) (flat_map (λ i. option_to_list (T.value i)) items.now)) }
{
    let mut parts = Parts::new(1);
    for item in items {
        parts = parts.add_some(marks, item.value());
    }
    parts
}

// The mark of a type of values among types of those marks.
fn defined_mark(marks: &[Mark], ty: &DefinedType) -> Mark
    ensures { result ≡ declared_mark (is_nominal (shown_defined ty.now))
        (map (value_reach marks.now) (members (shown_defined ty.now)))
        (capped (defined_size (sizes marks.now) (shown_defined ty.now))) }
{
    match ty {
        DefinedType::Primitive(_) => Parts::new(1).plain(),
        DefinedType::Record(ty) => parts_of(marks, &ty.fields).nominal(),
        DefinedType::Variant(ty) => parts_of(marks, &ty.cases).nominal(),
        DefinedType::List(ty) => Parts::new(0).add(marks, ty.elem_ty).plain(),
        DefinedType::Tuple(ty) => parts_of(marks, &ty.fields).plain(),
        DefinedType::Flags(_) | DefinedType::Enum(_) => Parts::new(1).nominal(),
        DefinedType::Option(ty) => Parts::new(0).add(marks, ty.inner_ty).plain(),
        DefinedType::Result(ty) => {
            let ok = Parts::new(0).add_maybe(marks, ty.ok_ty);
            ok.add_maybe(marks, ty.err_ty).plain()
        }
    }
}

// The mark of a type of functions among types of those marks.
fn function_mark(marks: &[Mark], ty: &FuncType) -> Mark
    ensures { result ≡ declared_mark false (map (value_reach marks.now) (signature_members ty.now))
        (capped (signature_size (sizes marks.now) ty.now)) }
{
    parts_of(marks, &ty.params)
        .add_some(marks, ty.result)
        .plain()
}

impl<T: Typed, C: CoreTyped> Scope<T, C> {
    /// The mark of a type of values: `Mark::NONE` if none is kept.
    pub fn defined_mark(&self, ty: &DefinedType) -> Mark
        ensures { self.now.keeps ≡ true → result ≡ declared_mark (is_nominal (shown_defined ty.now))
            (map (value_reach self.now.marks) (members (shown_defined ty.now)))
            (capped (defined_size (sizes self.now.marks) (shown_defined ty.now))) }
    {
        if self.keeps() {
            defined_mark(self.marks(), ty)
        } else {
            Mark::NONE
        }
    }

    /// The mark of a type of functions: `Mark::NONE` if none is kept.
    pub fn function_mark(&self, ty: &FuncType) -> Mark
        ensures { self.now.keeps ≡ true
            → result ≡ declared_mark false (map (value_reach self.now.marks) (signature_members ty.now))
            (capped (signature_size (sizes self.now.marks) ty.now)) }
    {
        if self.keeps() {
            function_mark(self.marks(), ty)
        } else {
            Mark::NONE
        }
    }
}
