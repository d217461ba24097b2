//! A section that was given to the builder.

/// A section's name and bytes.
#[derive(Drop)]
pub(super) struct GivenSection {
    pub name: Vec<u8>,
    pub bytes: Vec<u8>,
}
