//! Packet lines to bytes.
pub use hex_digits::u16_to_hex;
