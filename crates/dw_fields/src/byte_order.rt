//! The order of the bytes of a number, and numbers read by it.

ghost use Rattle.std.specs.Prelude.{◌≡◌, ◌≤◌, length};
ghost use Rattle.dw_fields.specs.Reading.{number_of};

use byteorder::{BigEndian, ByteOrder, LittleEndian};

/// The byte order of a file's numbers, from its ELF header.
#[derive(Clone, Copy, Debug, PartialEq, Eq)]
pub enum Order {
    /// The lowest byte stands first.
    Little,
    /// The highest byte stands first.
    Big,
}

impl Order {
    /// The number of the first 2 bytes.
    #[inline]
    pub fn u16(self, bytes: &[u8]) -> u16
        requires { 2 ≤ length bytes.now }
        ensures { result ≡ number_of self 2 bytes.now }
    {
        match self {
            Order::Little => LittleEndian::read_u16(bytes),
            Order::Big => BigEndian::read_u16(bytes),
        }
    }

    /// The number of the first 3 bytes.
    #[inline]
    pub fn u24(self, bytes: &[u8]) -> u32
        requires { 3 ≤ length bytes.now }
        ensures { result ≡ number_of self 3 bytes.now }
    {
        match self {
            Order::Little => LittleEndian::read_u24(bytes),
            Order::Big => BigEndian::read_u24(bytes),
        }
    }

    /// The number of the first 4 bytes.
    #[inline]
    pub fn u32(self, bytes: &[u8]) -> u32
        requires { 4 ≤ length bytes.now }
        ensures { result ≡ number_of self 4 bytes.now }
    {
        match self {
            Order::Little => LittleEndian::read_u32(bytes),
            Order::Big => BigEndian::read_u32(bytes),
        }
    }

    /// The number of the first 8 bytes.
    #[inline]
    pub fn u64(self, bytes: &[u8]) -> u64
        requires { 8 ≤ length bytes.now }
        ensures { result ≡ number_of self 8 bytes.now }
    {
        match self {
            Order::Little => LittleEndian::read_u64(bytes),
            Order::Big => BigEndian::read_u64(bytes),
        }
    }

    /// The number of the first 16 bytes.
    #[inline]
    pub fn u128(self, bytes: &[u8]) -> u128
        requires { 16 ≤ length bytes.now }
        ensures { result ≡ number_of self 16 bytes.now }
    {
        match self {
            Order::Little => LittleEndian::read_u128(bytes),
            Order::Big => BigEndian::read_u128(bytes),
        }
    }
}
