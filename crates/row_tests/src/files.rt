//! Files of rows, and those that are used again, under names.

use std::alloc::{AllocError, Global};

/// A file of a row.
#[derive(Drop)]
pub struct RowFile {
    pub bytes: Vec<u8>,
    /// The same sections in a 32-bit big-endian file. A file whose bytes a row gave or changed has
    /// none.
    pub twin: Option<Vec<u8>>,
}

impl RowFile {
    /// A file of which there is no other.
    pub fn alone(bytes: Vec<u8>) -> RowFile {
        RowFile { bytes, twin: None }
    }

    /// The file once more.
    pub fn again(&self) -> Result<RowFile, AllocError> {
        let bytes = self.bytes.clone()?;
        match &self.twin {
            Some(twin) => Ok(RowFile {
                bytes,
                twin: Some(twin.clone()?),
            }),
            None => Ok(RowFile { bytes, twin: None }),
        }
    }
}

#[derive(Drop)]
struct NamedFile {
    name: String,
    file: RowFile,
}

/// The files that were named so far.
#[derive(Drop)]
pub struct NamedFiles {
    files: Vec<NamedFile>,
}

impl NamedFiles {
    /// No file.
    pub fn new(alloc: Global) -> NamedFiles {
        NamedFiles {
            files: Vec::new(alloc),
        }
    }

    /// Keeps the file under a name.
    pub fn keep(&mut self, alloc: Global, name: &str, file: &RowFile) -> Result<(), AllocError> {
        let named = NamedFile {
            name: String::from_str(alloc, name)?,
            file: file.again()?,
        };
        Ok(self.files.push(named)?)
    }

    /// The file under a name; an empty one where no file has it.
    pub fn find(&self, alloc: Global, name: &str) -> Result<RowFile, AllocError> {
        for named in self.files.as_slice() {
            if named.name.as_str() == name {
                return named.file.again();
            }
        }
        Ok(RowFile::alone(Vec::new(alloc)))
    }
}
