//! Which function types of a scope are equal, once that is asked.

ghost use Rattle.std.specs.Prelude.{◌≡◌, ◌<◌, ◌≤◌, List, [], drop, length, slice_get, OnOk, IfErr, Some};
ghost use Rattle.smith_format.specs.Consistency.{max_u32};
ghost use Rattle.smith_syntax.specs.HasSignature.{has_signature};
ghost use Rattle.smith_syntax.specs.Places.{places};
ghost use Rattle.smith_syntax.specs.declared.deftype.DefType.{DefType};
ghost use Rattle.smith_scopes.specs.Rows.{AreFirst, AreRows, IsChosenEqual, Notes, NotesType, values_of};

use smith_input::{Error, Unstructured};
use smith_syntax::{DefType, FuncType};
use std::alloc::Global;
use std::collections::HashMap;
use std::hash::{BuildHasherDefault, DefaultHasher};
use std::rc::Rc;

// The indexes of the equals of each function type. The names in them are from the input: a hasher that such names can
// steer would make the map slow, and they cannot steer SipHash.
type Rows = HashMap<FuncType, Vec<u32>, BuildHasherDefault<DefaultHasher>>;

// The rows of the first types of a scope. The others are noted when equal types are next asked for, which is never in
// most scopes.
#[derive(Drop)]
pub(super) struct Equals {
    noted: usize,
    rows: Rows,
}

// Puts the index at the end of the row of a function type.
fn note(rows: &mut Rows, alloc: Global, func: &FuncType, index: u32) -> Result<(), Error>
    ensures ok { OnOk result (Notes func.now index rows.old rows.new) }
    ensures memory { IfErr result (λ e. e ≡ Error.OutOfMemory) }
{
    let key = func.copied(alloc)?;
    let row = rows.entry(key)?.or_insert(Vec::new(alloc));
    row.push(index)?;
    Ok(())
}

// The same for a type, if it is a function type.
fn note_type(rows: &mut Rows, alloc: Global, ty: &DefType, index: u32) -> Result<(), Error>
    ensures ok { OnOk result (NotesType ty.now index rows.old rows.new) }
    ensures memory { IfErr result (λ e. e ≡ Error.OutOfMemory) }
{
    match ty {
        DefType::Func(func) => note(rows, alloc, &**func, index),
        DefType::Defined(_) | DefType::Component(_) | DefType::Instance(_) => Ok(()),
    }
}

// Is it a function type that is equal to that one?
fn is_equal(ty: &DefType, func: &FuncType) -> bool
    ensures { result ≡ has_signature func.now ty.now }
{
    match ty {
        DefType::Func(other) => *func == **other,
        DefType::Defined(_) | DefType::Component(_) | DefType::Instance(_) => false,
    }
}

// How many types from that index on are equal to a function type.
pub(super) fn later_len(types: &[Rc<DefType>], from: usize, func: &FuncType) -> usize
    requires { from ≤ length types.now }
    ensures count { result ≡ length (places (has_signature func.now) from (drop from (values_of types.now))) }
    ensures few { result ≤ length types.now }
{
    let mut count = 0;
    for index in from..types.len() {
        if is_equal(&*types[index], func) {
            count += 1;
        }
    }
    count
}

// The index of the type from that index on that is equal to a function type and has `k` earlier such ones.
pub(super) fn later_at(types: &[Rc<DefType>], from: usize, func: &FuncType, k: usize) -> u32
    requires few { length types.now ≤ max_u32 }
    requires one { k < length (places (has_signature func.now) from (drop from (values_of types.now))) }
    ensures { slice_get (places (has_signature func.now) from (drop from (values_of types.now))) k ≡ Some result }
{
    let mut earlier = 0;
    for index in from..types.len() {
        if is_equal(&*types[index], func) {
            if earlier == k {
                return index as u32;
            }
            earlier += 1;
        }
    }
    0
}

impl Equals {
    pub(super) fn new(alloc: Global) -> Equals
        ensures { AreRows result [] }
    {
        Equals {
            noted: 0,
            rows: HashMap::with_hasher(alloc, BuildHasherDefault::default()),
        }
    }

    // Notes the types that are not noted.
    pub(super) fn note_rest(&mut self, alloc: Global, types: &[Rc<DefType>]) -> Result<(), Error>
        requires first { AreFirst self.old (values_of types.now) }
        requires few { length types.now ≤ max_u32 }
        ensures first { OnOk result (AreFirst self.new (values_of types.now)) }
        ensures all { OnOk result (AreRows self.new (values_of types.now)) }
        ensures memory { IfErr result (λ e. e ≡ Error.OutOfMemory) }
    {
        for index in self.noted..types.len() {
            note_type(&mut self.rows, alloc, &*types[index], index as u32)?;
            self.noted = index + 1;
        }
        Ok(())
    }

    // How many types are noted.
    pub(super) fn noted(&self) -> usize
        ensures { result ≡ self.now.noted }
    {
        self.noted
    }

    // The indexes of the equals of a function type among those that are noted.
    pub(super) fn row(&self, func: &FuncType) -> &[u32]
        ensures { (types : List DefType) → AreRows self.now types
            → result.now ≡ places (has_signature func.now) 0 types }
    {
        match self.rows.get(func) {
            Some(row) => row,
            None => &[],
        }
    }

    // One of these indexes, by a choice; none if there is none.
    pub(super) fn choose(&self, func: &FuncType, u: &mut Unstructured) -> Option<u32>
        ensures { (types : List DefType) → AreRows self.now types
            → IsChosenEqual types func.now u.old result u.new }
    {
        let row = self.row(func);
        if row.is_empty() {
            return None;
        }
        Some(*u.choose(row))
    }
}
