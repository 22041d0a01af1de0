//! What the tests share.

use smith_component::Config;
use smith_core::{
    Code, CompositeType, FuncType, Instructions, Module, ModuleParts, SubType, ValType,
};
use std::alloc::Global;
use std::process::Abort;
use std::test::Fail;

/// The first eight bytes of each component.
pub const PREAMBLE: &[u8] = &[0x00, 0x61, 0x73, 0x6d, 0x0d, 0x00, 0x01, 0x00];

/// Small limits: one module, one component and one instance, a depth of 2, and 10 of everything else.
pub fn small_limits() -> Config {
    Config {
        max_modules: 1,
        max_components: 1,
        max_instances: 1,
        max_nesting_depth: 2,
        max_types: 10,
        max_type_size: 10,
        max_imports: 10,
        max_funcs: 10,
        ..Config::default()
    }
}

/// What has this name is the preamble, and these sections.
pub fn check_component<R: Abort>(rt: &R, name: &str, bytes: &[u8], sections: &[u8]) {
    assert_eq!(rt; bytes.strip_prefix(PREAMBLE), Some(sections), "{name}");
}

/// A function of nothing, with two variables of i32 and no instructions.
pub fn one_function(alloc: Global) -> Result<ModuleParts, Fail> {
    let mut parts = ModuleParts::empty(alloc);
    parts.types.push(SubType {
        is_final: true,
        supertype: None,
        composite_type: CompositeType::Func(FuncType {
            params: Vec::new(alloc),
            results: Vec::new(alloc),
        }),
    })?;
    parts.rec_groups.push((0, 1))?;
    parts.should_encode_types = true;
    parts.funcs.push(0)?;
    parts.num_defined_funcs = 1;
    parts.code.push(Code {
        locals: Vec::from_slice(alloc, &[ValType::I32, ValType::I32])?,
        instructions: Instructions::Generated(Vec::new(alloc)),
    })?;
    Ok(parts)
}

/// The bytes of a module of that function alone.
pub const ONE_FUNCTION: &[u8] = &[
    0x00, 0x61, 0x73, 0x6d, 1, 0, 0, 0, 1, 4, 1, 0x60, 0, 0, 3, 2, 1, 0, 10, 8, 1, 6, 2, 1, 0x7f,
    1, 0x7f, 0x0b,
];

/// The module of these parts, which agree.
pub fn module_of<R: Abort + AllocGlobal>(rt: &R, parts: ModuleParts) -> Result<Module, Fail> {
    let Ok(module) = Module::from_unboxed(rt.alloc(), parts) else {
        panic!(rt; "the parts disagree");
    };
    Ok(module)
}
