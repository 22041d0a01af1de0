//! The limits of what is built.

ghost use Rattle.std.specs.Prelude.{◌≡◌, ◌↔◌, true, IsOk, IfErr};

use smith_input::{Error, MOST_NAME_LEN};

/// The most bits of a byte that a loop looks at: all of them. Public only for the crates above.
pub const MOST_LOOP_BITS: usize = 8;

/// The limits of what is built. Every number counts things, except `max_type_size`, which is the fuel of a type.
///
/// The entries that a component lacks for a minimum are added when it is finished, whatever the input. So a large
/// minimum costs time and memory in proportion to it, for each component.
#[derive(Debug, Clone, Copy, PartialEq, Eq)]
pub struct Config {
    /// The fewest types of a component. They can always be added.
    pub min_types: usize,
    /// The fewest imports of a component. If they cannot be added, it is refused with `MinimumNotMet`.
    pub min_imports: usize,
    /// The fewest functions of a component: imported ones, lifts and lowers together. If they cannot be added, it is
    /// refused with `MinimumNotMet`.
    pub min_funcs: usize,
    /// The fewest memories of a core module.
    pub min_memories: usize,
    /// The most types of a component, and the most core types.
    pub max_types: usize,
    /// The most imports of a component.
    pub max_imports: usize,
    /// The most functions of a component: imported ones, lifts and lowers together.
    pub max_funcs: usize,
    /// The most exports of a component. They are functions of it too, and are not counted against `max_funcs`.
    pub max_exports: usize,
    /// The most globals that a module type imports and exports.
    pub max_globals: usize,
    /// The most tables that a module type imports and exports.
    pub max_tables: usize,
    /// The most tags that a module type imports and exports.
    pub max_tags: usize,
    /// Whether a core function may have several results.
    pub multi_value_enabled: bool,
    /// Whether there are tags.
    pub exceptions_enabled: bool,
    /// Whether there are reference types as core value types.
    pub reference_types_enabled: bool,
    /// Whether there is the core value type v128.
    pub simd_enabled: bool,
    /// Whether there are the core value types f32 and f64.
    pub allow_floats: bool,
    /// Whether core modules count their data segments in a section.
    pub bulk_memory_enabled: bool,
    /// The most memories of a core module, and the most that a module type imports and exports.
    pub max_memories: usize,
    /// The most core modules of the whole tree, embedded and imported.
    pub max_modules: usize,
    /// The most components of the whole tree below the root, nested and imported.
    pub max_components: usize,
    /// The most instances that the whole tree imports.
    pub max_instances: usize,
    /// How deep components nest, the root at 1. A limit of 0 counts as 1.
    pub max_nesting_depth: usize,
    /// The fuel of a type: the most members and declarations that it has at all depths.
    pub max_type_size: u32,
    /// The fewest sections that a component has when the input finishes it. If no input is left, it is finished
    /// whatever it has.
    pub finish_after: usize,
    /// Whether a validator accepts each component: what it imports and exports is of types that it names, and effective
    /// sizes and counts are below the bounds of wasmparser.
    pub must_validate: bool,
    /// How many bytes of a name are read at most. Digits that make it new, and an `a` where a word is missing, come on
    /// top. At most 100. The name of a custom section does not count.
    pub max_name_length: usize,
    /// How many of the lowest bits of a byte are 0 where a loop ends, as one over types or fields: with 1 every second
    /// byte ends it, with 2 every fourth, with 8 one in 256. At most 8; a limit of 0 counts as 1.
    pub loop_bits: usize,
}

impl Default for Config {
    ghost use Rattle.smith_format.specs.Consistency.{IsDefault};

    ghost is_default = { IsDefault };

    /// Minima of 0, counts of 100 within a component and of 10 over the tree, no exports, one memory, a depth of
    /// 10, a fuel of 1000, every feature on, components that may be finished at once, names of 100 bytes, and loops of
    /// one bit.
    fn default() -> Config {
        Config {
            min_types: 0,
            min_imports: 0,
            min_funcs: 0,
            min_memories: 0,
            max_types: 100,
            max_imports: 100,
            max_funcs: 100,
            max_exports: 0,
            max_globals: 100,
            max_tables: 100,
            max_tags: 100,
            multi_value_enabled: true,
            exceptions_enabled: true,
            reference_types_enabled: true,
            simd_enabled: true,
            allow_floats: true,
            bulk_memory_enabled: true,
            max_memories: 1,
            max_modules: 10,
            max_components: 10,
            max_instances: 10,
            max_nesting_depth: 10,
            max_type_size: 1000,
            finish_after: 0,
            must_validate: false,
            max_name_length: MOST_NAME_LEN,
            loop_bits: 1,
        }
    }
}

impl Config {
    ghost use Rattle.smith_format.specs.Consistency.{AreCountsValid, IsConsistent};

    // Are the counts within the bounds of a validator?
    fn are_counts_valid(&self) -> bool
        ensures { result ≡ true ↔ AreCountsValid self.now }
    {
        self.max_types <= 500_000
            && self.max_funcs.saturating_add(self.max_exports) <= 1_000_000
            && self.max_modules <= 1_000
            && self.max_components <= 1_000
            && self.max_instances <= 1_000
            && self.max_memories <= 100
    }

    /// Accepts limits that fit together: no minimum exceeds its maximum, written counts are at most 4,294,967,295,
    /// functions and exports counted together, the nesting depth is at most 1000, names have at most 100 bytes, and
    /// loops look at 8 bits at most. If components must validate, there are at most 500,000 types, 1,000,000 functions
    /// and exports together, 1,000 modules, components and instances each, and 100 memories. Others are refused with
    /// `InconsistentLimits`.
    pub fn check(&self) -> Result<(), Error>
        ensures accepts { IsOk result ↔ IsConsistent self.now }
        ensures refuses { IfErr result (λ e. e ≡ Error.InconsistentLimits) }
    {
        let crossed = self.min_types > self.max_types
            || self.min_imports > self.max_imports
            || self.min_funcs > self.max_funcs;
        let wide = self.max_types > 0xffff_ffff
            || self.max_imports > 0xffff_ffff
            || self.max_funcs.saturating_add(self.max_exports) > 0xffff_ffff
            || self.max_modules > 0xffff_ffff
            || self.max_components > 0xffff_ffff
            || self.max_instances > 0xffff_ffff;
        let deep = self.max_nesting_depth > 1000;
        let long = self.max_name_length > MOST_NAME_LEN || self.loop_bits > MOST_LOOP_BITS;
        if crossed || wide || deep || long {
            return Err(Error::InconsistentLimits);
        }
        if self.must_validate && !self.are_counts_valid() {
            return Err(Error::InconsistentLimits);
        }
        Ok(())
    }
}
