//! The limits: their names, their greatest values, and how each is taken from a table of TOML.

ghost use Rattle.std.specs.Prelude.{◌≡◌, ◌≤◌, pos, None, false, true, unwrap_or, option_map, IfOk, IfErr, IfSome};
ghost use Rattle.std.specs.Prelude.{is_some};
ghost use Rattle.toml.specs.Data.{as_integer, boolean, integer};
ghost use Rattle.toml.specs.View.{table_view, view};
ghost use Rattle.smith_format.specs.declared.config.Config.{Config};
ghost use Rattle.smith_format.specs.Consistency.{IsDefault};
ghost use Rattle.smith_limits.specs.Limits.{first_wrong, is_name, is_switch, is_wrong, most_of, name_of, value_at};
ghost use Rattle.smith_limits.specs.Limits.{IsBounded, IsInteger, IsNoInteger, IsWrong, Sets};

use smith_format::{Config, MOST_LOOP_BITS};
use smith_input::MOST_NAME_LEN;
use toml::{Table, Value};

/// What is wrong at a limit's name.
#[derive(Debug, Clone, Copy, PartialEq, Eq)]
pub enum Wrong {
    /// The value is not an integer.
    NoInteger,
    /// The value is not a boolean.
    NoBoolean,
    /// The integer is negative.
    Negative,
    /// The integer is greater than `Key::most`.
    TooLarge,
}

/// A limit, by its name.
#[derive(Debug, Clone, Copy, PartialEq, Eq)]
pub enum Key {
    MinTypes,
    MinImports,
    MinFuncs,
    MinMemories,
    MaxTypes,
    MaxImports,
    MaxFuncs,
    MaxExports,
    MaxGlobals,
    MaxTables,
    MaxTags,
    MaxMemories,
    MaxModules,
    MaxComponents,
    MaxInstances,
    MaxNestingDepth,
    MaxTypeSize,
    MultiValueEnabled,
    ExceptionsEnabled,
    ReferenceTypesEnabled,
    SimdEnabled,
    AllowFloats,
    BulkMemoryEnabled,
    FinishAfter,
    MaxNameLength,
    LoopBits,
    MustValidate,
}

/// All limits, in the order in which what is wrong is looked for.
pub const KEYS: [Key; 27] = [
    Key::MinTypes,
    Key::MinImports,
    Key::MinFuncs,
    Key::MinMemories,
    Key::MaxTypes,
    Key::MaxImports,
    Key::MaxFuncs,
    Key::MaxExports,
    Key::MaxGlobals,
    Key::MaxTables,
    Key::MaxTags,
    Key::MaxMemories,
    Key::MaxModules,
    Key::MaxComponents,
    Key::MaxInstances,
    Key::MaxNestingDepth,
    Key::MaxTypeSize,
    Key::MultiValueEnabled,
    Key::ExceptionsEnabled,
    Key::ReferenceTypesEnabled,
    Key::SimdEnabled,
    Key::AllowFloats,
    Key::BulkMemoryEnabled,
    Key::FinishAfter,
    Key::MaxNameLength,
    Key::LoopBits,
    Key::MustValidate,
];

// What is counted in 32 bits of the written bytes.
const MOST_COUNTED: usize = 0xffff_ffff;

const DEEPEST: usize = 1000;

impl Key {
    /// Its name, as in `Config`.
    pub fn name(self) -> &'static str
        ensures { result.now ≡ name_of self }
    {
        match self {
            Key::MinTypes => "min_types",
            Key::MinImports => "min_imports",
            Key::MinFuncs => "min_funcs",
            Key::MinMemories => "min_memories",
            Key::MaxTypes => "max_types",
            Key::MaxImports => "max_imports",
            Key::MaxFuncs => "max_funcs",
            Key::MaxExports => "max_exports",
            Key::MaxGlobals => "max_globals",
            Key::MaxTables => "max_tables",
            Key::MaxTags => "max_tags",
            Key::MaxMemories => "max_memories",
            Key::MaxModules => "max_modules",
            Key::MaxComponents => "max_components",
            Key::MaxInstances => "max_instances",
            Key::MaxNestingDepth => "max_nesting_depth",
            Key::MaxTypeSize => "max_type_size",
            Key::MultiValueEnabled => "multi_value_enabled",
            Key::ExceptionsEnabled => "exceptions_enabled",
            Key::ReferenceTypesEnabled => "reference_types_enabled",
            Key::SimdEnabled => "simd_enabled",
            Key::AllowFloats => "allow_floats",
            Key::BulkMemoryEnabled => "bulk_memory_enabled",
            Key::FinishAfter => "finish_after",
            Key::MaxNameLength => "max_name_length",
            Key::LoopBits => "loop_bits",
            Key::MustValidate => "must_validate",
        }
    }

    /// Whether it is true or false, and not a number.
    pub fn is_switch(self) -> bool
        ensures { result ≡ is_switch self }
    {
        matches!(
            self,
            Key::MultiValueEnabled
                | Key::ExceptionsEnabled
                | Key::ReferenceTypesEnabled
                | Key::SimdEnabled
                | Key::AllowFloats
                | Key::BulkMemoryEnabled
                | Key::MustValidate
        )
    }

    /// The greatest number that it may be by itself.
    pub fn most(self) -> usize
        ensures { result ≡ most_of self }
    {
        match self {
            Key::MaxTypes
            | Key::MaxImports
            | Key::MaxFuncs
            | Key::MaxExports
            | Key::MaxModules
            | Key::MaxComponents
            | Key::MaxInstances
            | Key::MaxTypeSize => MOST_COUNTED,
            Key::MaxNestingDepth => DEEPEST,
            Key::MaxNameLength => MOST_NAME_LEN,
            Key::LoopBits => MOST_LOOP_BITS,
            _ => usize::MAX,
        }
    }
}

/// Whether a limit has this name.
pub fn is_known(text: &str) -> bool
    ensures { result ≡ is_name text.now }
{
    KEYS.iter().any(|key| key.name() == text)
}

fn value_at<'t>(table: &'t Table, key: Key) -> Option<&'t Value>
    ensures { option_map (λ value. view value.now) result ≡ value_at (table_view table.now) key }
{
    table.get(key.name())
}

fn integer_of(value: &Value, most: usize) -> Result<usize, Wrong>
    ensures set { IfOk result (IsInteger most (as_integer (view value.now))) }
    ensures refused { IfErr result (IsNoInteger most (as_integer (view value.now))) }
{
    match value.as_integer() {
        None => Err(Wrong::NoInteger),
        Some(integer) => match usize::try_from(integer) {
            Ok(number) if number <= most => Ok(number),
            Ok(_) => Err(Wrong::TooLarge),
            Err(_) => Err(Wrong::Negative),
        },
    }
}

/// What is wrong at a limit's name.
pub fn wrong_at(table: &Table, key: Key) -> Option<Wrong>
    ensures why { IfSome result (IsWrong (table_view table.now) key) }
    ensures whether { is_some result ≡ is_wrong (table_view table.now) key }
{
    let value = value_at(table, key)?;
    if !key.is_switch() {
        return integer_of(value, key.most()).err();
    }
    match value.as_bool() {
        None => Some(Wrong::NoBoolean),
        Some(_) => None,
    }
}

/// The first limit at whose name something is wrong.
pub fn first_wrong(table: &Table) -> Option<Key>
    ensures { result ≡ first_wrong (table_view table.now) }
{
    KEYS.iter()
        .copied()
        .find(|key| wrong_at(table, *key).is_some())
}

fn number(table: &Table, key: Key, default: usize) -> usize
    requires right { first_wrong (table_view table.now) ≡ None }
    requires number { is_switch key ≡ false }
    ensures set { integer (pos result) ≡ unwrap_or (value_at (table_view table.now) key) (integer (pos default)) }
    ensures within { default ≤ most_of key → result ≤ most_of key }
{
    match value_at(table, key) {
        None => default,
        Some(value) => integer_of(value, key.most()).unwrap(),
    }
}

fn switch(table: &Table, key: Key, default: bool) -> bool
    requires right { first_wrong (table_view table.now) ≡ None }
    requires switch { is_switch key ≡ true }
    ensures { boolean result ≡ unwrap_or (value_at (table_view table.now) key) (boolean default) }
{
    match value_at(table, key) {
        None => default,
        Some(value) => value.as_bool().unwrap(),
    }
}

// The limits that a table sets over these, whether they fit together or not.
fn set_over(table: &Table, base: Config) -> Config
    requires right { first_wrong (table_view table.now) ≡ None }
    requires base { base.max_type_size ≤ most_of Key.MaxTypeSize }
    ensures { Sets (table_view table.now) base result }
{
    let max_type_size = number(table, Key::MaxTypeSize, base.max_type_size as usize);
    Config {
        min_types: number(table, Key::MinTypes, base.min_types),
        min_imports: number(table, Key::MinImports, base.min_imports),
        min_funcs: number(table, Key::MinFuncs, base.min_funcs),
        min_memories: number(table, Key::MinMemories, base.min_memories),
        max_types: number(table, Key::MaxTypes, base.max_types),
        max_imports: number(table, Key::MaxImports, base.max_imports),
        max_funcs: number(table, Key::MaxFuncs, base.max_funcs),
        max_exports: number(table, Key::MaxExports, base.max_exports),
        max_globals: number(table, Key::MaxGlobals, base.max_globals),
        max_tables: number(table, Key::MaxTables, base.max_tables),
        max_tags: number(table, Key::MaxTags, base.max_tags),
        max_memories: number(table, Key::MaxMemories, base.max_memories),
        max_modules: number(table, Key::MaxModules, base.max_modules),
        max_components: number(table, Key::MaxComponents, base.max_components),
        max_instances: number(table, Key::MaxInstances, base.max_instances),
        max_nesting_depth: number(table, Key::MaxNestingDepth, base.max_nesting_depth),
        max_type_size: max_type_size as u32,
        multi_value_enabled: switch(table, Key::MultiValueEnabled, base.multi_value_enabled),
        exceptions_enabled: switch(table, Key::ExceptionsEnabled, base.exceptions_enabled),
        reference_types_enabled: switch(
            table,
            Key::ReferenceTypesEnabled,
            base.reference_types_enabled,
        ),
        simd_enabled: switch(table, Key::SimdEnabled, base.simd_enabled),
        allow_floats: switch(table, Key::AllowFloats, base.allow_floats),
        bulk_memory_enabled: switch(table, Key::BulkMemoryEnabled, base.bulk_memory_enabled),
        finish_after: number(table, Key::FinishAfter, base.finish_after),
        max_name_length: number(table, Key::MaxNameLength, base.max_name_length),
        loop_bits: number(table, Key::LoopBits, base.loop_bits),
        must_validate: switch(table, Key::MustValidate, base.must_validate),
    }
}

/// The limits that a table sets, whether they fit together or not.
pub fn set_by(table: &Table) -> Config
    requires { first_wrong (table_view table.now) ≡ None }
    ensures sets { (default : Config) → IsDefault default → Sets (table_view table.now) default result }
    ensures bounded { IsBounded result }
{
    set_over(table, Config::default())
}
