//! The first eight bytes of what is in the binary format: the magic word, and the version.

/// What a component begins with (Binary.md, component definitions). Public only for the crates above.
pub const COMPONENT_PREAMBLE: [u8; 8] = [0x00, 0x61, 0x73, 0x6d, 0x0d, 0x00, 0x01, 0x00];

/// What a core module begins with (core specification, Binary Format, Modules). Public only for the crates above.
pub const CORE_PREAMBLE: [u8; 8] = [0x00, 0x61, 0x73, 0x6d, 0x01, 0x00, 0x00, 0x00];
