//! Types of one scope: the places of each kind, references to them, and declarations of them.

use smith_core::{Config, ValType};
use smith_input::Unstructured;
use smith_types::{
    Alias, ComponentType, ComponentTypeDef, ComponentTypeRef as Ref, CoreType, DefType,
    DefinedType, FuncType, InstanceType, InstanceTypeDecl, Kind, ModuleType, OuterAliasKind,
    PrimitiveValType, RefTotals, Scopes, arbitrary_type_ref,
};
use std::alloc::Global;
use std::process::Abort;
use std::rc::Rc;
use std::test::Fail;

// A type of each kind, with nothing in it.
fn empty_type(alloc: Global, kind: Kind) -> Result<DefType, Fail> {
    let defs = Vec::new(alloc);
    let params = Vec::new(alloc);
    let result = None;
    Ok(match kind {
        Kind::Func => DefType::Func(Rc::new(alloc, FuncType { params, result })?),
        Kind::Component => DefType::Component(ComponentType { defs }),
        Kind::Instance => {
            let defs = Vec::new(alloc);
            DefType::Instance(InstanceType { defs })
        }
        _ => DefType::Defined(DefinedType::Primitive(PrimitiveValType::U32)),
    })
}

// A core type of either kind, with nothing in it.
fn empty_core_type(alloc: Global, kind: Kind) -> Result<CoreType, Fail> {
    if matches!(&kind, Kind::CoreModule) {
        let defs = Vec::new(alloc);
        return Ok(CoreType::Module(ModuleType { defs }));
    }
    let params: Vec<ValType> = Vec::new(alloc);
    let results = Vec::new(alloc);
    let func = smith_format::FuncType { params, results };
    Ok(CoreType::Func(Rc::new(alloc, func)?))
}

// One scope with empty types of these kinds, in order. The core kinds are among the core types.
fn scopes_of<R: Abort + AllocGlobal>(rt: &R, kinds: &[Kind]) -> Result<Scopes, Fail> {
    let alloc = rt.alloc();
    let mut scopes = Scopes::new(alloc);
    for kind in kinds {
        let depth = scopes.depth();
        assert!(rt; depth == 1);
        if matches!(kind, Kind::CoreFunc | Kind::CoreModule) {
            assert!(rt; scopes.len_core(0) < 100);
            scopes.push_core_type(Rc::new(alloc, empty_core_type(alloc, *kind)?)?)?;
        } else {
            assert!(rt; scopes.len(0) < 100);
            scopes.push_type(Rc::new(alloc, empty_type(alloc, *kind)?)?)?;
        }
    }
    Ok(scopes)
}

// Types: 0 and 5 of instances, 1 and 3 of components, 2 and 4 of functions, 6 defined. Core types: 0 and 2 of modules,
// 1 of a function.
const ALL_KINDS: &[Kind] = &[
    Kind::Instance,
    Kind::Component,
    Kind::CoreModule,
    Kind::Func,
    Kind::CoreFunc,
    Kind::Component,
    Kind::Func,
    Kind::CoreModule,
    Kind::Instance,
    Kind::Defined,
];

const KIND_PLACES: &[(Kind, &[u32])] = &[
    (Kind::Instance, &[0, 5]),
    (Kind::Component, &[1, 3]),
    (Kind::Func, &[2, 4]),
    (Kind::Defined, &[6]),
    (Kind::CoreModule, &[0, 2]),
    (Kind::CoreFunc, &[1]),
];

// Types of that kind are only in these places.
fn are_at<R: Abort>(rt: &R, scopes: &Scopes, kind: Kind, places: &[u32]) {
    assert_eq!(rt; scopes.kind_len(kind), places.len(), "{kind:?}");
    for (rank, place) in places.iter().enumerate() {
        assert!(rt; rank < scopes.kind_len(kind), "{kind:?}");
        assert_eq!(rt; scopes.kind_at(kind, rank), *place, "{kind:?}");
    }
}

#[test]
fn the_places_of_each_kind(rt: HostRuntime) -> Result<(), Fail> {
    let scopes = scopes_of(&rt, ALL_KINDS)?;
    let mut inside = scopes_of(&rt, ALL_KINDS)?;
    inside.open_scope()?;
    for (kind, places) in KIND_PLACES {
        are_at(&rt, &scopes, *kind, places);
        are_at(&rt, &inside, *kind, &[]);
    }
    Ok(())
}

// How many modules, functions, components and instances there are, and limits that allow no more of them.
const TOTALS: RefTotals = RefTotals {
    modules: 1,
    funcs: 2,
    components: 3,
    instances: 4,
};

fn full_limits(max_types: usize) -> Config {
    Config {
        max_modules: 1,
        max_funcs: 2,
        max_components: 3,
        max_instances: 4,
        max_types,
        ..Config::default()
    }
}

// The second item is type equal if one more type may stand, otherwise function. Each has the entry 1 of its kind or of
// the types.
#[test]
fn references_of_exports_outside_of_types(rt: HostRuntime) -> Result<(), Fail> {
    let scopes = scopes_of(&rt, ALL_KINDS)?;
    for (max_types, expected) in [(7, Ref::Func(4)), (8, Ref::TypeEq(1))] {
        let limits = full_limits(max_types);
        let mut u = Unstructured::new(b"\x01\x01\x07");
        let reference = arbitrary_type_ref(&mut u, &limits, &scopes, TOTALS, false, false);
        assert_eq!(rt; reference, Some(expected));
        assert_eq!(rt; u.left(), b"\x07".as_slice());
    }
    Ok(())
}

// The kinds of a scope, and whether the reference is that of an import of its type.
const NOTHING: &[(&[Kind], bool)] = &[
    (&[Kind::Defined], true),
    (&[Kind::CoreFunc], false),
    (&[], false),
    (&[], true),
];

#[test]
fn nothing_to_refer_to(rt: HostRuntime) -> Result<(), Fail> {
    for (kinds, is_import) in NOTHING {
        let scopes = scopes_of(&rt, *kinds)?;
        let mut u = Unstructured::new(b"\x01");
        let reference = arbitrary_type_ref(
            &mut u,
            &full_limits(7),
            &scopes,
            TOTALS,
            *is_import,
            true,
        );
        assert_eq!(rt; reference, None, "{kinds:?}");
        assert_eq!(rt; u.left(), b"\x01".as_slice());
    }
    Ok(())
}

// What an instance type declares is the same in a component type.
#[test]
fn declarations_in_a_component_type(rt: HostRuntime) -> Result<(), Fail> {
    let alloc = rt.alloc();
    let number = Rc::new(alloc, empty_type(alloc, Kind::Defined)?)?;
    let def = ComponentTypeDef::from(InstanceTypeDecl::TypeDecl(number.clone()?));
    assert!(rt; matches!(&def, ComponentTypeDef::TypeDecl(ty) if Rc::ptr_eq(ty, &number)));
    let module = Rc::new(alloc, empty_core_type(alloc, Kind::CoreModule)?)?;
    let def = ComponentTypeDef::from(InstanceTypeDecl::CoreTypeDecl(module.clone()?));
    assert!(rt; matches!(&def, ComponentTypeDef::CoreTypeDecl(ty) if Rc::ptr_eq(ty, &module)));
    let alias = Alias {
        count: 2,
        i: 3,
        kind: OuterAliasKind::OfType(number.clone()?),
    };
    let ComponentTypeDef::Alias(alias) = ComponentTypeDef::from(InstanceTypeDecl::Alias(alias))
    else {
        panic!(rt; "another declaration");
    };
    assert_eq!(rt; (alias.count, alias.i), (2, 3));
    assert!(rt; matches!(&alias.kind, OuterAliasKind::OfType(ty) if Rc::ptr_eq(ty, &number)));
    Ok(())
}
