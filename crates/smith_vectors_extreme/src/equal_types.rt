//! Equal function types of a scope, also while memory runs out.

use crate::scarcity::while_memory_runs_out;
use smith_input::{Error, Unstructured};
use smith_types::{ComponentValType, DefType, DefinedType, FuncType, PrimitiveValType, Scopes};
use std::alloc::Global;
use std::process::Abort;
use std::rc::Rc;
use std::test::Fail;

// A function type of a `char` of that name to `char`.
fn of_char(alloc: Global, name: &str) -> Result<FuncType, Fail> {
    let char_type = ComponentValType::Primitive(PrimitiveValType::Char);
    let mut params = Vec::new(alloc);
    params.push((String::from_str(alloc, name)?, char_type))?;
    Ok(FuncType {
        params,
        result: Some(char_type),
    })
}

fn shared(alloc: Global, func: FuncType) -> Result<Rc<DefType>, Fail> {
    Ok(Rc::new(alloc, DefType::Func(Rc::new(alloc, func)?))?)
}

// A scope of the function type and a primitive type.
fn two_types(alloc: Global) -> Result<Scopes, Fail> {
    let number = DefType::Defined(DefinedType::Primitive(PrimitiveValType::U32));
    let mut scopes = Scopes::new(alloc);
    scopes.push_type(shared(alloc, of_char(alloc, "b")?)?)?;
    scopes.push_type(Rc::new(alloc, number)?)?;
    Ok(scopes)
}

// The equals of that function type have these indexes.
fn check_places<R: Abort>(rt: &R, scopes: &Scopes, func: &FuncType, places: &[u32]) {
    let many = scopes.equal_len(func);
    assert_eq!(rt; many, places.len());
    for k in 0..many {
        let place = scopes.equal_at(func, k);
        assert_eq!(rt; places.get(k), Some(&place));
    }
}

// The equals of that function type that choices by 0, 1, 2 and so on find.
fn check_equals<R: Abort>(
    rt: &R,
    scopes: &mut Scopes,
    func: &Rc<FuncType>,
    expected: &[Option<u32>],
) {
    for (byte, expected) in [0, 1, 2, 3].iter().zip(expected) {
        let input = [*byte];
        let found = scopes.choose_equal(func, &mut Unstructured::new(&input));
        assert_eq!(rt; found, Ok(*expected));
    }
}

fn push<R: Abort>(rt: &R, scopes: &mut Scopes, entry: &Rc<DefType>) -> Result<u32, Error> {
    let depth = scopes.depth();
    assert!(rt; depth == 1);
    let many = scopes.len(0);
    assert!(rt; many < 10);
    scopes.push_type(entry.clone()?)
}

#[test]
fn equal_function_types_are_found(rt: HostRuntime) -> Result<(), Fail> {
    let alloc = rt.alloc();
    let func = Rc::new(alloc, of_char(alloc, "b")?)?;
    let other = Rc::new(alloc, of_char(alloc, "c")?)?;
    let mut scopes = two_types(alloc)?;
    check_places(&rt, &scopes, &func, &[0]);
    check_equals(&rt, &mut scopes, &func, &[Some(0), Some(0)]);
    check_equals(&rt, &mut scopes, &other, &[None]);
    check_places(&rt, &scopes, &other, &[]);
    let third = shared(alloc, of_char(alloc, "b")?)?;
    let fourth = shared(alloc, of_char(alloc, "c")?)?;
    assert_eq!(rt; push(&rt, &mut scopes, &third)?, 2);
    check_places(&rt, &scopes, &func, &[0, 2]);
    check_places(&rt, &scopes, &other, &[]);
    assert_eq!(rt; push(&rt, &mut scopes, &fourth)?, 3);
    check_places(&rt, &scopes, &other, &[3]);
    let expected = [Some(0), Some(2), Some(0), Some(2)];
    check_equals(&rt, &mut scopes, &func, &expected);
    check_equals(&rt, &mut scopes, &other, &[Some(3), Some(3)]);
    check_places(&rt, &scopes, &func, &[0, 2]);
    Ok(())
}

#[test]
fn a_push_while_memory_runs_out(rt: HostRuntime) -> Result<(), Fail> {
    let alloc = rt.alloc();
    let func = of_char(alloc, "b")?;
    let mut scopes = Scopes::new(alloc);
    let first = shared(alloc, of_char(alloc, "b")?)?;
    let (index, _) = while_memory_runs_out(&rt, "a push", || {
        let answer = push(&rt, &mut scopes, &first);
        if answer.is_err() {
            check_places(&rt, &scopes, &func, &[]);
            assert_eq!(rt; scopes.own_len(), 0);
        }
        answer
    })?;
    assert_eq!(rt; index, 0);
    check_places(&rt, &scopes, &func, &[0]);
    Ok(())
}

// No index is in a row twice, however often memory was refused while types were noted. Once they are, no question needs
// memory.
#[test]
fn equal_function_types_while_memory_runs_out(rt: HostRuntime) -> Result<(), Fail> {
    let alloc = rt.alloc();
    let func = Rc::new(alloc, of_char(alloc, "b")?)?;
    let mut scopes = two_types(alloc)?;
    let third = shared(alloc, of_char(alloc, "b")?)?;
    push(&rt, &mut scopes, &third)?;
    while_memory_runs_out(&rt, "a question", || {
        let answer = scopes.choose_equal(&func, &mut Unstructured::new(&[1]));
        if answer.is_ok() {
            let expected = [Some(0), Some(2), Some(0), Some(2)];
            check_equals(&rt, &mut scopes, &func, &expected);
        }
        answer
    })?;
    Ok(())
}
