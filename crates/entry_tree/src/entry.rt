//! An entry with its attributes.

use form_values::Raw;

/// An attribute of an entry (DWARF 5 section 7.5.4).
#[derive(Clone, Copy, Debug)]
pub struct Attr<'f> {
    /// The attribute's number.
    pub name: u64,
    /// The form's number, as the declaration gives it.
    pub form: u64,
    /// The place of the value in `.debug_info`.
    pub place: u64,
    /// The value, before an offset or an index in it is followed.
    pub raw: Raw<'f>,
}

/// A debugging information entry (DWARF 5 section 7.5.2).
#[derive(Clone, Copy, Debug)]
pub struct Entry<'a> {
    /// The place of its code in `.debug_info`.
    pub place: u64,
    /// How many entries it stands below; 0 for the unit's root.
    pub depth: u32,
    /// The code of its declaration, never 0.
    pub code: u64,
    /// The declaration's tag.
    pub tag: u64,
    /// The attributes in the order of the declaration.
    pub attrs: &'a [Attr<'a>],
}

/// What stands before the attributes of an entry, or is told by its declaration.
#[derive(Clone, Copy, Debug)]
pub struct EntryHead {
    /// The place of its code in `.debug_info`.
    pub place: u64,
    /// How many entries it stands below; 0 for the unit's root.
    pub depth: u32,
    /// The code of its declaration, never 0.
    pub code: u64,
    /// The declaration's tag.
    pub tag: u64,
}
