//! The limits as C lays them out.

ghost use Rattle.std.specs.Prelude.{◌≡◌, ◌≢◌, Option, IfSome, None};
ghost use Rattle.smith_format.specs.Consistency.{IsDefault};
ghost use Rattle.smith_format.specs.declared.config.Config.{Config};
ghost use Rattle.smith_swarm.specs.Profile.{fuzzed};
ghost use Rattle.smith_c.specs.Limits.{byte_of, limits_of};

use smith_format::Config;
use smith_swarm::fuzz_limits;

/// The limits as C lays them out, each as in `Config`. A feature is on if its byte is 1, and off if it is 0.
#[repr(C)]
#[derive(Clone, Copy)]
pub struct Limits {
    pub min_types: usize,
    pub min_imports: usize,
    pub min_funcs: usize,
    pub min_memories: usize,
    pub max_types: usize,
    pub max_imports: usize,
    pub max_funcs: usize,
    pub max_exports: usize,
    pub max_globals: usize,
    pub max_tables: usize,
    pub max_tags: usize,
    pub max_memories: usize,
    pub max_modules: usize,
    pub max_components: usize,
    pub max_instances: usize,
    pub max_nesting_depth: usize,
    pub max_type_size: u32,
    pub multi_value_enabled: u8,
    pub exceptions_enabled: u8,
    pub reference_types_enabled: u8,
    pub simd_enabled: u8,
    pub allow_floats: u8,
    pub bulk_memory_enabled: u8,
    pub must_validate: u8,
    pub finish_after: usize,
    pub max_name_length: usize,
    pub loop_bits: usize,
}

// Whether a feature is on: 0 or 1, and nothing else.
fn flag(byte: u8) -> Option<bool>
    ensures told { IfSome result (λ on. byte ≡ byte_of on) }
    ensures untold { result ≡ None → (on : _) → byte ≢ byte_of on }
{
    match byte {
        0 => Some(false),
        1 => Some(true),
        _ => None,
    }
}

impl Limits {
    /// The limits of a configuration.
    pub fn of(config: &Config) -> Limits
        ensures { result ≡ limits_of config.now }
    {
        Limits {
            min_types: config.min_types,
            min_imports: config.min_imports,
            min_funcs: config.min_funcs,
            min_memories: config.min_memories,
            max_types: config.max_types,
            max_imports: config.max_imports,
            max_funcs: config.max_funcs,
            max_exports: config.max_exports,
            max_globals: config.max_globals,
            max_tables: config.max_tables,
            max_tags: config.max_tags,
            max_memories: config.max_memories,
            max_modules: config.max_modules,
            max_components: config.max_components,
            max_instances: config.max_instances,
            max_nesting_depth: config.max_nesting_depth,
            max_type_size: config.max_type_size,
            multi_value_enabled: u8::from(config.multi_value_enabled),
            exceptions_enabled: u8::from(config.exceptions_enabled),
            reference_types_enabled: u8::from(config.reference_types_enabled),
            simd_enabled: u8::from(config.simd_enabled),
            allow_floats: u8::from(config.allow_floats),
            bulk_memory_enabled: u8::from(config.bulk_memory_enabled),
            must_validate: u8::from(config.must_validate),
            finish_after: config.finish_after,
            max_name_length: config.max_name_length,
            loop_bits: config.loop_bits,
        }
    }

    /// The configuration that has these limits. There is none if a feature's byte is neither 0 nor 1.
    pub fn config(&self) -> Option<Config>
        ensures told { IfSome result (λ config. self.now ≡ limits_of config) }
        ensures untold { result ≡ None → (config : Config) → self.now ≢ limits_of config }
    {
        Some(Config {
            min_types: self.min_types,
            min_imports: self.min_imports,
            min_funcs: self.min_funcs,
            min_memories: self.min_memories,
            max_types: self.max_types,
            max_imports: self.max_imports,
            max_funcs: self.max_funcs,
            max_exports: self.max_exports,
            max_globals: self.max_globals,
            max_tables: self.max_tables,
            max_tags: self.max_tags,
            multi_value_enabled: flag(self.multi_value_enabled)?,
            exceptions_enabled: flag(self.exceptions_enabled)?,
            reference_types_enabled: flag(self.reference_types_enabled)?,
            simd_enabled: flag(self.simd_enabled)?,
            allow_floats: flag(self.allow_floats)?,
            bulk_memory_enabled: flag(self.bulk_memory_enabled)?,
            max_memories: self.max_memories,
            max_modules: self.max_modules,
            max_components: self.max_components,
            max_instances: self.max_instances,
            max_nesting_depth: self.max_nesting_depth,
            max_type_size: self.max_type_size,
            finish_after: self.finish_after,
            must_validate: flag(self.must_validate)?,
            max_name_length: self.max_name_length,
            loop_bits: self.loop_bits,
        })
    }
}

/// Writes the default limits.
#[unsafe(no_mangle)]
pub extern "C" fn lupinanon_proved_default_limits(limits: &mut Limits)
    ensures { (config : Config) → IsDefault config → limits.new ≡ limits_of config }
{
    *limits = Limits::of(&Config::default());
}

/// Writes the limits of the profile `fuzz`.
#[unsafe(no_mangle)]
pub extern "C" fn lupinanon_proved_fuzz_limits(limits: &mut Limits)
    ensures { (default : Config) → IsDefault default → limits.new ≡ limits_of (fuzzed default) }
{
    *limits = Limits::of(&fuzz_limits());
}
