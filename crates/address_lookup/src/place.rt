//! A place in the source.

/// Where the instruction at an address comes from in the source.
#[derive(Clone, Copy, Debug)]
pub struct Place<'f> {
    /// The number of the unit whose line table has the address, from 0.
    pub unit: u32,
    /// The line in the file; modulo `2^64`.
    pub line: u64,
    /// The path of the file's directory, as the line table has it. It is empty where the table has no
    /// directory of that number, and where it has no such file.
    pub directory: &'f [u8],
    /// The path of the file, as the line table has it; `None` where the table has no such file.
    pub name: Option<&'f [u8]>,
}
