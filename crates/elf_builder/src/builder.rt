//! The builder itself.
ghost use Rattle.std.specs.Prelude.{◌≡◌, ◌++◌, ◌∷◌, [], true, IfOk, OnOk, OnErr};
ghost use Rattle.dw_fields.specs.declared.byte_order.Order.TheVariants.{Little};
ghost use Rattle.elf_builder.specs.File.{elf_file_of};

use super::file_plan::whole_file;
use super::sections::GivenSection;
use dw_fields::Order;
use elf_sections::ClassLayout;
use std::alloc::{AllocError, Global};
use std::marker::Model;

/// Collects sections and makes the file that holds them, in the order of adding.
#[derive(Drop)]
pub struct ElfBuilder {
    alloc: Global,
    layout: ClassLayout,
    sections: Vec<GivenSection>,
}

impl Model for ElfBuilder {
    ghost use Rattle.std.specs.Prelude.{map};
    ghost use Rattle.elf_builder.specs.Given.{GivenFile, given};

    ghost Value = { GivenFile };

    ghost view = { λ b. record {
      layout = b.layout;
      sections = map given b.sections.items;
    } };
}

impl ElfBuilder {
    /// A builder of a 64-bit little-endian file, with no section.
    pub fn new(alloc: Global) -> ElfBuilder
        ensures { result ≡ record {
          layout = record { order = Little; wide = true };
          sections = [];
        } }
    {
        ElfBuilder::shaped(alloc, true, Order::Little)
    }

    /// A builder with no section, of a 64-bit file (`wide`) or else a 32-bit file, whose numbers
    /// have this byte order.
    pub fn shaped(alloc: Global, wide: bool, order: Order) -> ElfBuilder
        ensures { result ≡ record {
          layout = record { order = order; wide = wide };
          sections = [];
        } }
    {
        ElfBuilder {
            alloc,
            layout: ClassLayout { order, wide },
            sections: Vec::new(alloc),
        }
    }

    /// Adds a section behind those that were added before.
    ///
    /// # Errors
    ///
    /// Where memory runs out. The builder is then as it was.
    pub fn add(&mut self, name: &str, bytes: &[u8]) -> Result<(), AllocError>
        ensures ok { OnOk result (self.new ≡ record self.old {
          sections = self.old.sections ++ record { name = name.now; bytes = bytes.now } ∷ [];
        }) }
        ensures err { OnErr result (self.new ≡ self.old) }
    {
        let name = Vec::from_slice(self.alloc, name.as_bytes())?;
        let bytes = Vec::from_slice(self.alloc, bytes)?;
        Ok(self.sections.push(GivenSection { name, bytes })?)
    }

    /// The file: the header, the bytes of the sections without gaps, their names, and the section
    /// headers. Numbers that don't fit their fields are cut off at the field's width.
    ///
    /// # Errors
    ///
    /// Where memory runs out.
    pub fn finish(self) -> Result<Vec<u8>, AllocError>
        ensures { IfOk result (λ file. file.items ≡ elf_file_of self) }
    {
        whole_file(self.alloc, self.layout, self.sections.as_slice())
    }
}
