//! Allocations that fail while something is written: each call returns `OutOfMemory` and leaves what it should, until
//! there is enough memory, and then it returns what it always returns.

use crate::common::{ONE_FUNCTION, check_component, module_of, one_function, small_limits};
use crate::refused_growth::ROWS;
use crate::scarcity::while_memory_runs_out;
use smith_component::{Component, Error, Section, Unstructured};
use smith_core::{EntityType, MemoryType, Module, write_entity};
use smith_types::{
    ComponentTypeRef, CoreType, DefType, FuncType, Import, write_core_type, write_import,
    write_type,
};
use std::alloc::Global;
use std::process::Abort;
use std::rc::Rc;
use std::test::Fail;

// The loans that are refused before there is one block of that many bytes. It takes eight bytes more, in steps of 16,
// and 32 at least. Two allocations would take two blocks.
fn loans_before(bytes: usize) -> usize {
    bytes.saturating_add(8).div_ceil(16).max(2)
}

#[test]
fn components_and_modules_are_written_with_one_growth(rt: HostRuntime) -> Result<(), Fail> {
    let alloc = rt.alloc();
    let (name, input, sections) = ROWS[0];
    let component = Component::new(alloc, small_limits(), &mut Unstructured::new(input))?;
    assert_eq!(rt; component.measure()?, 38);
    let (bytes, refused) = while_memory_runs_out(&rt, name, || component.to_bytes(alloc))?;
    check_component(&rt, name, &bytes, sections);
    assert_eq!(rt; refused, loans_before(38));
    let module = module_of(&rt, one_function(alloc)?)?;
    let (bytes, refused) = while_memory_runs_out(&rt, "a module", || module.to_bytes(alloc))?;
    assert_eq!(rt; bytes.as_slice(), ONE_FUNCTION);
    assert_eq!(rt; refused, loans_before(28));
    Ok(())
}

// What can be written.
#[derive(Drop)]
enum Written {
    Type(DefType),
    CoreType(CoreType),
    Import(Import),
    Entity(EntityType),
    Module(Module),
}

impl Written {
    fn write(&self, out: &mut Vec<u8>) -> Result<(), Error> {
        match self {
            Written::Type(ty) => write_type(out, ty),
            Written::CoreType(ty) => write_core_type(out, ty),
            Written::Import(import) => write_import(out, import),
            Written::Entity(entity) => write_entity(out, entity),
            Written::Module(module) => module.write(out),
        }
    }
}

// The allocator's smallest block has that many bytes, and what has fewer grows within it without a refusal.
const SMALLEST_BLOCK: usize = 24;

// The room of a full buffer of the smallest block that has doubled once, or twice in one loan, to hold that many bytes.
fn doubled(bytes: usize) -> usize {
    if bytes <= 2 * SMALLEST_BLOCK {
        2 * SMALLEST_BLOCK
    } else {
        4 * SMALLEST_BLOCK
    }
}

fn check_bytes<R: Abort>(rt: &R, name: &str, found: &[u8], expected: &[u8]) {
    assert_eq!(rt; found, expected, "{name}");
}

// The bytes are written after refusals that leave the buffer as it was.
fn check_written<R: Abort + AllocGlobal>(
    rt: &R,
    name: &str,
    written: &Written,
    expected: &[u8],
) -> Result<(), Fail> {
    let full = [0x2a; SMALLEST_BLOCK];
    let mut out = Vec::from_slice(rt.alloc(), &full)?;
    let ((), refused) = while_memory_runs_out(rt, name, || {
        let answer = written.write(&mut out);
        if answer.is_err() {
            check_bytes(rt, name, &out, &full);
        }
        answer
    })?;
    assert_eq!(rt; out.strip_prefix(&full), Some(expected), "{name}");
    assert_eq!(rt; refused, loans_before(doubled(out.len())), "{name}");
    Ok(())
}

// A function type of nothing, and a core function type of nothing.
fn empty_types(alloc: Global) -> Result<(DefType, CoreType), Fail> {
    let func = FuncType {
        params: Vec::new(alloc),
        result: None,
    };
    let core = smith_core::FuncType {
        params: Vec::new(alloc),
        results: Vec::new(alloc),
    };
    let func = DefType::Func(Rc::new(alloc, func)?);
    Ok((func, CoreType::Func(Rc::new(alloc, core)?)))
}

#[test]
fn each_sort_is_written_while_memory_runs_out(rt: HostRuntime) -> Result<(), Fail> {
    let alloc = rt.alloc();
    let (ty, core) = empty_types(alloc)?;
    let import = Import {
        name: String::from_str(alloc, "a")?,
        url: None,
        ty: ComponentTypeRef::Module(3),
    };
    let memory = MemoryType {
        minimum: 1,
        maximum: None,
        shared: false,
        memory64: false,
    };
    let memory = Written::Entity(EntityType::Memory(memory));
    let module = Written::Module(module_of(&rt, one_function(alloc)?)?);
    let rows: [(&str, Written, &[u8]); 5] = [
        ("a function type", Written::Type(ty), b"\x40\x00\x01\x00"),
        ("a core type", Written::CoreType(core), b"\x60\x00\x00"),
        (
            "an import",
            Written::Import(import),
            b"\x00\x01a\x00\x11\x03",
        ),
        ("a memory", memory, b"\x02\x00\x01"),
        ("a module", module, ONE_FUNCTION),
    ];
    for (name, written, expected) in &rows {
        check_written(&rt, name, written, expected)?;
    }
    Ok(())
}

// What was to be in a box for which there is no memory comes back.
#[test]
fn parts_while_memory_runs_out(rt: HostRuntime) -> Result<(), Fail> {
    let alloc = rt.alloc();
    let mut given = Some(one_function(alloc)?);
    let (module, _) = while_memory_runs_out(&rt, "a module", || {
        let Some(parts) = given.take() else {
            return Err(Error::PartsDisagree);
        };
        match Module::from_unboxed(alloc, parts) {
            Ok(module) => Ok(module),
            Err((error, parts)) => {
                assert_eq!(rt; parts.funcs.len(), 1);
                given = Some(parts);
                Err(error)
            }
        }
    })?;
    assert_eq!(rt; module.to_bytes(alloc)?.as_slice(), ONE_FUNCTION);
    Ok(())
}

#[test]
fn a_section_while_memory_runs_out(rt: HostRuntime) -> Result<(), Fail> {
    let alloc = rt.alloc();
    let mut given = Some(module_of(&rt, one_function(alloc)?)?);
    let (section, _) = while_memory_runs_out(&rt, "a section", || {
        let Some(module) = given.take() else {
            return Err(Error::PartsDisagree);
        };
        match Section::of_module(alloc, module) {
            Ok(section) => Ok(section),
            Err((error, module)) => {
                given = Some(module);
                Err(error)
            }
        }
    })?;
    let Section::CoreModule(module) = section else {
        panic!(rt; "another section");
    };
    assert_eq!(rt; module.to_bytes(alloc)?.as_slice(), ONE_FUNCTION);
    Ok(())
}
