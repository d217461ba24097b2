//! One section: what its header says, with its name and its bytes.

/// One section header, with the name and the bytes that it stands for (gABI chapter 4, "Sections").
#[derive(Clone, Copy, Debug)]
pub struct Section<'f> {
    /// The name, without its zero byte.
    pub name: &'f [u8],
    /// The type, `sh_type`.
    pub kind: u32,
    /// The flags, `sh_flags`.
    pub flags: u64,
    /// The size field, `sh_size`, in bytes.
    pub size: u64,
    /// The section's bytes; none for the types 0 (null) and 8 (no bits).
    pub bytes: &'f [u8],
}
