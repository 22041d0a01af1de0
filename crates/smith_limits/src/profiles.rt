//! Limits by one name, as TOML.

/// The names of the profiles.
pub const PROFILES: &[&str] = &["fuzz", "valid"];

/// The limits of the profile `fuzz`, which `examples/limits --write` writes. They are those of `smith_swarm`.
pub const FUZZ_LIMITS: &str = "\
max_exports = 10
finish_after = 8
max_name_length = 8
loop_bits = 2
";

/// The limits of the profile `valid`.
pub const VALID_LIMITS: &str = "must_validate = true\n";

/// The limits that the profile of this name sets.
pub fn profile_text(name: &str) -> Option<&'static str> {
    match name {
        "fuzz" => Some(FUZZ_LIMITS),
        "valid" => Some(VALID_LIMITS),
        _ => None,
    }
}
