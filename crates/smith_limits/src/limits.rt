//! The limits of a run, from a table of TOML, and the default ones as text, which `examples/limits --write` writes.

ghost use Rattle.std.specs.Prelude.{◌≡◌, IfOk, IfErr, OnOk, None, not, option_map, string_bytes, true, find};
ghost use Rattle.std.specs.BTreeMap.{keys};
ghost use Rattle.toml.specs.View.{table_view};
ghost use Rattle.smith_format.specs.declared.config.Config.{Config};
ghost use Rattle.smith_format.specs.Consistency.{IsConsistent, IsDefault};
ghost use Rattle.smith_limits.specs.Limits.{first_apart, first_wrong, is_apart, is_name, lower_of, unknown_in};
ghost use Rattle.smith_limits.specs.Limits.{upper_of, valid_pairs, IsBounded, IsRefused, SetsLimits};

use crate::keys::{Key, Wrong, first_wrong, is_known, set_by, wrong_at};
use smith_format::Config;
use std::alloc::{AllocError, Global};
use std::fmt;
use toml::Table;

/// The default limits as TOML, each after a comment that says what it limits.
pub const DEFAULT_LIMITS: &str = "\
# The fewest types of a component. They can always be added.
min_types = 0
# The fewest imports of a component. If they cannot be added, it is refused with MinimumNotMet.
min_imports = 0
# The fewest functions of a component: imported ones, lifts and lowers together. If they cannot be added, it is refused
# with MinimumNotMet.
min_funcs = 0
# The fewest memories of a core module.
min_memories = 0
# The most types of a component, and the most core types.
max_types = 100
# The most imports of a component.
max_imports = 100
# The most functions of a component: imported ones, lifts and lowers together.
max_funcs = 100
# The most exports of a component. They are functions of it too, and are not counted against max_funcs.
max_exports = 0
# The most globals that a module type imports and exports.
max_globals = 100
# The most tables that a module type imports and exports.
max_tables = 100
# The most tags that a module type imports and exports.
max_tags = 100
# The most memories of a core module, and the most that a module type imports and exports.
max_memories = 1
# The most core modules of the whole tree, embedded and imported.
max_modules = 10
# The most components of the whole tree below the root, nested and imported.
max_components = 10
# The most instances that the whole tree imports.
max_instances = 10
# How deep components nest, the root at 1. A limit of 0 counts as 1.
max_nesting_depth = 10
# The fuel of a type: the most members and declarations that it has at all depths.
max_type_size = 1000
# Whether a core function may have several results.
multi_value_enabled = true
# Whether there are tags.
exceptions_enabled = true
# Whether there are reference types as core value types.
reference_types_enabled = true
# Whether there is the core value type v128.
simd_enabled = true
# Whether there are the core value types f32 and f64.
allow_floats = true
# Whether core modules count their data segments in a section.
bulk_memory_enabled = true
# Whether a validator accepts each component: what it imports and exports is of types that it names, and effective sizes
# and counts are below the bounds of wasmparser.
must_validate = false
# The fewest sections that a component has when the input finishes it. If no input is left, it is finished whatever it
# has.
finish_after = 0
# How many bytes of a name are read at most. Digits that make it new, and an a where a word is missing, come on top. At
# most 100. The name of a custom section does not count.
max_name_length = 100
# How many of the lowest bits of a byte are 0 where a loop ends, as one over types or fields: with 1 every second byte
# ends it, with 2 every fourth, with 8 one in 256. At most 8; a limit of 0 counts as 1.
loop_bits = 1
";

// What components that must validate may have: types, functions and exports together, modules, components and instances
// each, and memories.
const MOST_TYPES: usize = 500_000;

const MOST_FUNCS: usize = 1_000_000;

const MOST_NESTED: usize = 1_000;

const MOST_MEMORIES: usize = 100;

/// Two limits that may not fit together.
#[derive(Debug, Clone, Copy, PartialEq, Eq)]
pub enum Pair {
    /// `min_types` is greater than `max_types`.
    Types,
    /// `min_imports` is greater than `max_imports`.
    Imports,
    /// `min_funcs` is greater than `max_funcs`.
    Funcs,
    /// `max_funcs` and `max_exports` together are greater than 4,294,967,295.
    Exports,
    /// Components must validate, and `max_types` is greater than 500,000.
    ValidTypes,
    /// Components must validate, and `max_funcs` and `max_exports` together are greater than 1,000,000.
    ValidExports,
    /// Components must validate, and `max_modules` is greater than 1,000.
    ValidModules,
    /// Components must validate, and `max_components` is greater than 1,000.
    ValidComponents,
    /// Components must validate, and `max_instances` is greater than 1,000.
    ValidInstances,
    /// Components must validate, and `max_memories` is greater than 100.
    ValidMemories,
}

impl Pair {
    // The most that the first limit may be, if it is a limit of components that must validate.
    fn most_valid(self) -> Option<usize> {
        match self {
            Pair::Types | Pair::Imports | Pair::Funcs | Pair::Exports => None,
            Pair::ValidTypes => Some(MOST_TYPES),
            Pair::ValidExports => Some(MOST_FUNCS),
            Pair::ValidModules | Pair::ValidComponents | Pair::ValidInstances => Some(MOST_NESTED),
            Pair::ValidMemories => Some(MOST_MEMORIES),
        }
    }

    /// Its two limits.
    pub fn keys(self) -> (Key, Key)
        ensures lower { result.0 ≡ lower_of self }
        ensures upper { result.1 ≡ upper_of self }
    {
        match self {
            Pair::Types => (Key::MinTypes, Key::MaxTypes),
            Pair::Imports => (Key::MinImports, Key::MaxImports),
            Pair::Funcs => (Key::MinFuncs, Key::MaxFuncs),
            Pair::Exports | Pair::ValidExports => (Key::MaxExports, Key::MaxFuncs),
            Pair::ValidTypes => (Key::MaxTypes, Key::MustValidate),
            Pair::ValidModules => (Key::MaxModules, Key::MustValidate),
            Pair::ValidComponents => (Key::MaxComponents, Key::MustValidate),
            Pair::ValidInstances => (Key::MaxInstances, Key::MustValidate),
            Pair::ValidMemories => (Key::MaxMemories, Key::MustValidate),
        }
    }
}

impl fmt::Display for Pair {
    fn fmt<W: fmt::Write>(&self, f: &mut fmt::Formatter<W>) -> fmt::Result {
        let (lower, upper) = self.keys();
        let (lower, upper) = (lower.name(), upper.name());
        match (self, self.most_valid()) {
            (Pair::Exports, _) => {
                write!(
                    f,
                    "`{lower}` and `{upper}` together are greater than 4294967295"
                )
            }
            (Pair::ValidExports, Some(most)) => {
                write!(
                    f,
                    "`{lower}` and `{upper}` together are greater than {most}, and components must validate"
                )
            }
            (_, Some(most)) => {
                write!(
                    f,
                    "`{lower}` is greater than {most}, and components must validate"
                )
            }
            (_, None) => write!(f, "`{lower}` is greater than `{upper}`"),
        }
    }
}

/// Why a table sets no limits.
#[derive(Debug, PartialEq, Eq, Drop)]
pub enum Fault {
    /// No limit has this name.
    Unknown(String),
    /// The value of a limit is wrong.
    At(Key, Wrong),
    /// Two limits do not fit together, set or by default.
    Apart(Pair),
    /// There is not enough memory for the name that no limit has.
    OutOfMemory,
}

impl fmt::Display for Fault {
    fn fmt<W: fmt::Write>(&self, f: &mut fmt::Formatter<W>) -> fmt::Result {
        match self {
            Fault::Unknown(name) => write!(f, "unknown limit `{name}`"),
            Fault::At(key, Wrong::NoInteger) => write!(f, "`{}` must be an integer", key.name()),
            Fault::At(key, Wrong::NoBoolean) => write!(f, "`{}` must be true or false", key.name()),
            Fault::At(key, Wrong::Negative) => write!(f, "`{}` is negative", key.name()),
            Fault::At(key, Wrong::TooLarge) => {
                write!(f, "`{}` is greater than {}", key.name(), key.most())
            }
            Fault::Apart(pair) => write!(f, "{pair}"),
            Fault::OutOfMemory => f.write_str("out of memory"),
        }
    }
}

fn unknown_key(table: &Table) -> Option<&String>
    ensures { option_map (λ key. key.now) result ≡ find (λ key. not (is_name (string_bytes key))) (keys table.now) }
{
    table.keys().find(|key| !is_known(key.as_str()))
}

fn check_keys(alloc: Global, table: &Table) -> Result<(), Fault>
    ensures known { OnOk result (unknown_in (table_view table.now) ≡ None) }
    ensures refused { IfErr result (λ e. (default : Config) → IsRefused (table_view table.now) default e) }
{
    match unknown_key(table) {
        None => Ok(()),
        Some(key) => match String::from_str(alloc, key.as_str()) {
            Ok(name) => Err(Fault::Unknown(name)),
            Err(AllocError) => Err(Fault::OutOfMemory),
        },
    }
}

fn check_values(table: &Table) -> Result<(), Fault>
    ensures right { OnOk result (first_wrong (table_view table.now) ≡ None) }
    ensures refused { IfErr result (λ e. (default : Config) → IsRefused (table_view table.now) default e) }
{
    let Some(key) = first_wrong(table) else {
        return Ok(());
    };
    match wrong_at(table, key) {
        None => Ok(()),
        Some(wrong) => Err(Fault::At(key, wrong)),
    }
}

// The first limit that is greater than components that must validate may have, in the order of `Pair`.
fn invalid(config: &Config) -> Option<Pair>
    requires { config.now.must_validate ≡ true }
    ensures { result ≡ find (is_apart config.now) valid_pairs }
{
    if config.max_types > MOST_TYPES {
        return Some(Pair::ValidTypes);
    }
    if config.max_funcs.saturating_add(config.max_exports) > MOST_FUNCS {
        return Some(Pair::ValidExports);
    }
    if config.max_modules > MOST_NESTED {
        return Some(Pair::ValidModules);
    }
    if config.max_components > MOST_NESTED {
        return Some(Pair::ValidComponents);
    }
    if config.max_instances > MOST_NESTED {
        return Some(Pair::ValidInstances);
    }
    if config.max_memories > MOST_MEMORIES {
        return Some(Pair::ValidMemories);
    }
    None
}

/// The first two limits that do not fit together, in the order of `Pair`.
pub fn apart(config: &Config) -> Option<Pair>
    ensures apart { result ≡ first_apart config.now }
    ensures fits { IsBounded config.now → result ≡ None → IsConsistent config.now }
{
    if config.min_types > config.max_types {
        return Some(Pair::Types);
    }
    if config.min_imports > config.max_imports {
        return Some(Pair::Imports);
    }
    if config.min_funcs > config.max_funcs {
        return Some(Pair::Funcs);
    }
    let together = config.max_funcs.saturating_add(config.max_exports);
    if together > 0xffff_ffff {
        return Some(Pair::Exports);
    }
    if config.must_validate {
        return invalid(config);
    }
    None
}

/// The limits that a table sets. Each key sets the limit of its name, and what no key sets keeps its default.
pub fn limits_of(alloc: Global, table: &Table) -> Result<Config, Fault>
    ensures set { IfOk result (SetsLimits (table_view table.now)) }
    ensures refused { IfErr result (λ e. (default : Config) → IsDefault default
        → IsRefused (table_view table.now) default e) }
{
    check_keys(alloc, table)?;
    check_values(table)?;
    let config = set_by(table);
    match apart(&config) {
        None => Ok(config),
        Some(pair) => Err(Fault::Apart(pair)),
    }
}
