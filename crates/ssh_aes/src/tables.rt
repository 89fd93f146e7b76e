//! The round constants (FIPS 197 section 5.2).

/// The round constants, from the first.
pub(crate) static ROUND_CONSTANTS: [u8; 10] = [
    0x01, 0x02, 0x04, 0x08, 0x10, 0x20, 0x40, 0x80, 0x1b, 0x36,
];
