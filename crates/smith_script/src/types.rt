//! The types of a component, by their signatures.

ghost use Rattle.std.specs.Prelude.{◌≡◌, [], ◌∷◌, ◌++◌, Some, None, false, map, option_map, slice_get, IfOk};
ghost use Rattle.std.specs.Prelude.{MatchOption, OnOk, OnErr};
ghost use Rattle.std.specs.HashMap.{get};
ghost use Rattle.smith_syntax.specs.Entries.{Signature, function};
ghost use Rattle.smith_syntax.specs.HasSignature.{is_of_signature};
ghost use Rattle.smith_syntax.specs.Places.{places};
ghost use Rattle.smith_syntax.specs.SameSignature.{same_signature};
ghost use Rattle.smith_read.specs.TypeNodes.{shown_type_node};
ghost use Rattle.smith_script.specs.Equals.{Follows, IsNumbered, row_at, same_row, with_index};

use smith_read::TypeNode;
use smith_syntax::FuncType;
use std::alloc::{AllocError, Global};
use std::collections::HashMap;
use std::hash::{BuildHasherDefault, DefaultHasher};
use std::marker::Model;

// The number of the row of each function type. A hasher that the names in a file can steer would make the map slow, and
// SipHash is none.
type Numbers = HashMap<FuncType, usize, BuildHasherDefault<DefaultHasher>>;

/// The types of a component, the number of the row of each, and in rows the indexes of the equals of each function
/// type. Contracts see the types.
#[derive(Drop)]
pub(crate) struct Types<'a> {
    alloc: Global,
    types: Vec<&'a TypeNode>,
    row_of: Vec<usize>,
    numbers: Numbers,
    rows: Vec<Vec<usize>>,
}

impl<'a> Model for Types<'a> {
    ghost use Rattle.std.specs.Prelude.{List, map};
    ghost use Rattle.smith_scopes.specs.NodeScopes.{nodes_of};
    ghost use Rattle.smith_read.specs.TypeNodes.{shown_type_node};
    ghost use Rattle.smith_read.specs.declared.type_nodes.TypeNode.{TypeNode};
    ghost use Rattle.smith_script.specs.Equals.{AreEquals};

    ghost Value = { List TypeNode };

    ghost use Rattle.smith_read.specs.contracts.type_nodes.TypeNode as kind;
    ghost use Rattle.std.specs.Coded.{codes};

    ghost coded = { Prim.hlevel (codes, kind.the_row.coded) };

    ghost view = { λ s. nodes_of s.types.items };

    ghost invariant = { λ s.
        AreEquals (map shown_type_node (nodes_of s.types.items)) s.row_of.items s.numbers s.rows.items };
}

/// The function type that a type is, if it is one.
pub(crate) fn function_of(ty: &TypeNode) -> Option<&FuncType>
    ensures { MatchOption result ((s : Signature) → is_of_signature s (shown_type_node ty.now) ≡ false)
        (λ f. shown_type_node ty.now ≡ function f.now) }
{
    match ty {
        TypeNode::Func(func) => Some(func),
        TypeNode::Defined(_) | TypeNode::Component(_) | TypeNode::Instance(_) => None,
    }
}

// A new row for a function type that has none, and its number.
fn new_number(
    numbers: &mut Numbers,
    rows: &mut Vec<Vec<usize>>,
    alloc: Global,
    func: &FuncType,
) -> Result<usize, AllocError>
    requires numbered { IsNumbered numbers.old rows.old.items }
    requires missing { get same_signature numbers.old func.now ≡ None }
    ensures same { Follows same_row numbers.old numbers.new rows.old.items rows.new.items }
    ensures number { IfOk result (λ k. get same_signature numbers.new func.now ≡ Some k) }
{
    let Ok(key) = func.copied(alloc) else {
        return Err(AllocError);
    };
    rows.reserve(1)?;
    let number = rows.len();
    let Ok(_) = numbers.insert(key, number) else {
        return Err(AllocError);
    };
    rows.push_reserved(Vec::new(alloc));
    Ok(number)
}

// The number of the row of a function type. Each row is as it was.
fn number_of(
    numbers: &mut Numbers,
    rows: &mut Vec<Vec<usize>>,
    alloc: Global,
    func: &FuncType,
) -> Result<usize, AllocError>
    requires { IsNumbered numbers.old rows.old.items }
    ensures same { Follows same_row numbers.old numbers.new rows.old.items rows.new.items }
    ensures number { IfOk result (λ k. get same_signature numbers.new func.now ≡ Some k) }
{
    match numbers.get(func).copied() {
        Some(number) => Ok(number),
        None => new_number(numbers, rows, alloc, func),
    }
}

// Puts the index at the end of the row of a function type. If it fails, each row is as it was.
fn note(
    numbers: &mut Numbers,
    rows: &mut Vec<Vec<usize>>,
    alloc: Global,
    func: &FuncType,
    index: usize,
) -> Result<usize, AllocError>
    requires { IsNumbered numbers.old rows.old.items }
    ensures ok { OnOk result
        (Follows (with_index func.now index) numbers.old numbers.new rows.old.items rows.new.items) }
    ensures number { IfOk result (λ k. get same_signature numbers.new func.now ≡ Some k) }
    ensures err { OnErr result (Follows same_row numbers.old numbers.new rows.old.items rows.new.items) }
{
    let number = number_of(numbers, rows, alloc, func)?;
    rows[number].push(index)?;
    Ok(number)
}

fn number_at(numbers: &[usize], index: u32) -> Option<usize>
    ensures { result ≡ slice_get numbers.now index }
{
    numbers.get(index as usize).copied()
}

// The row of that number, if there is one.
fn row_at(rows: &[Vec<usize>], number: Option<usize>) -> &[usize]
    ensures { result.now ≡ row_at rows.now number }
{
    let Some(number) = number else {
        return &[];
    };
    match rows.get(number) {
        Some(row) => row,
        None => &[],
    }
}

impl<'a> Types<'a> {
    /// No types.
    pub(crate) fn new(alloc: Global) -> Types<'a>
        ensures { result ≡ [] }
    {
        Types {
            alloc,
            types: Vec::new(alloc),
            row_of: Vec::new(alloc),
            numbers: HashMap::with_hasher(alloc, BuildHasherDefault::default()),
            rows: Vec::new(alloc),
        }
    }

    /// One more, at the end.
    pub(crate) fn push(&mut self, ty: &'a TypeNode) -> Result<(), AllocError>
        ensures { OnOk result (self.new ≡ self.old ++ ty.now ∷ []) }
    {
        let index = self.types.len();
        self.types.reserve(1)?;
        self.row_of.reserve(1)?;
        let number = match function_of(ty) {
            Some(func) => note(&mut self.numbers, &mut self.rows, self.alloc, func, index)?,
            None => 0,
        };
        self.types.push_reserved(ty);
        self.row_of.push_reserved(number);
        Ok(())
    }

    /// The type with that index.
    pub(crate) fn get(&self, index: u32) -> Option<&'a TypeNode>
        ensures { option_map (λ t. t.now) result ≡ slice_get self.now index }
    {
        self.types.get(index as usize).copied()
    }

    /// The indexes of the function types that are equal to the one with that index.
    pub(crate) fn equals(&self, index: u32) -> &[usize]
        ensures { (s : Signature) → slice_get (map shown_type_node self.now) index ≡ Some (function s)
            → result.now ≡ places (is_of_signature s) 0 (map shown_type_node self.now) }
    {
        row_at(&self.rows, number_at(&self.row_of, index))
    }
}
