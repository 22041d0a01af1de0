//! Which limits the first bytes of an input encode.

ghost use Rattle.std.specs.Prelude.{◌≡◌, ◌<◌, slice_index};
ghost use Rattle.smith_swarm.specs.Swarm.{flag, front_len, number, swarmed};

use smith_format::Config;

/// How many limits an input encodes, each in one byte.
pub const LIMIT_COUNT: usize = 20;

/// The limits that an input encodes, and how many bytes at its front encode them.
#[derive(Debug, Clone, Copy, PartialEq, Eq)]
pub struct SwarmLimits {
    /// The limits, which do not always fit together.
    pub config: Config,
    /// How many bytes: `LIMIT_COUNT`, or as many as the input has if it has fewer.
    pub taken: usize,
}

// The byte at that index, and 0 after the end.
fn byte(input: &[u8], index: usize) -> u8
    ensures { result ≡ slice_index input.now index }
{
    input.get(index).copied().unwrap_or(0)
}

// The number below `below` that a byte encodes.
fn number(input: &[u8], index: usize, below: usize) -> usize
    requires { 0 < below }
    ensures value { result ≡ number input.now index below }
    ensures bound { result < below }
{
    usize::from(byte(input, index)) % below
}

// The flag that a byte encodes.
fn flag(input: &[u8], index: usize) -> bool
    ensures { result ≡ flag input.now index }
{
    byte(input, index) % 2 == 1
}

/// The given limits, overridden by the ones that the first bytes of an input encode, one byte each; a byte past the end
/// is 0.
///
/// A number is its byte modulo how many values the limit may have, from 0 on; a feature is on if its byte is odd. The
/// minima and `must_validate` are those given. So limits that fit together may become limits that do not, as when a
/// minimum is above the maximum that a byte encodes: these are then refused like any others.
#[tactic(auto, unfolding(crate::specs::Swarm::swarmed))]
pub fn swarm_limits(config: &Config, input: &[u8]) -> SwarmLimits
    ensures config { result.config ≡ swarmed config.now input.now }
    ensures taken { result.taken ≡ front_len input.now }
{
    let config = Config {
        max_types: number(input, 0, 256),
        max_imports: number(input, 1, 256),
        max_funcs: number(input, 2, 256),
        max_exports: number(input, 3, 256),
        max_globals: number(input, 4, 256),
        max_tables: number(input, 5, 256),
        max_tags: number(input, 6, 256),
        max_memories: number(input, 7, 16),
        max_modules: number(input, 8, 32),
        max_components: number(input, 9, 32),
        max_instances: number(input, 10, 32),
        max_nesting_depth: number(input, 11, 16),
        max_type_size: number(input, 12, 256) as u32,
        multi_value_enabled: flag(input, 13),
        exceptions_enabled: flag(input, 14),
        reference_types_enabled: flag(input, 15),
        simd_enabled: flag(input, 16),
        allow_floats: flag(input, 17),
        bulk_memory_enabled: flag(input, 18),
        finish_after: number(input, 19, 16),
        ..*config
    };
    let taken = input.len().min(LIMIT_COUNT);
    SwarmLimits { config, taken }
}
