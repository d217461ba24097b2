//! Prints the functions of an ELF file with their addresses: a program over the library.
//!
//! It opens the file that it is given, goes over its units and over the entries of each, and
//! follows the name and the address of each function to what they stand for.
#![tactic(auto)]

ghost use Rattle.dw_fields.specs.Reading.{IsAddressSize};
ghost use Rattle.elf_sections.specs.Shapes.{AreShort, sections_view};
ghost use Rattle.entry_tree.specs.Units.{IsUnitOf};

use abbrev_decl::{Scanner, Steps};
use anyhow::{Context, Result};
use bumpalo::Bump;
use dw_numbers::{attribute, tag};
use elf_sections::{Elf, Sections};
use entry_tree::{Entry, read_entries, root_facts};
use form_values::{Bases, Raw, resolve_address, resolve_text};
use std::{env, fs};
use unit_headers::{UnitHeader, UnitIndex};

fn main(rt: HostRuntime) -> Result<()> {
    let alloc = rt.alloc();
    let name = env::args(&rt)?.nth(1).context("no file is named")?;
    let file = fs::read(&rt, name.as_str())?;
    let elf = Elf::read(alloc, file.as_slice())?;
    let sections = elf.debug_sections();
    let length = sections.abbrev.len() as u64;
    let index = UnitIndex::read(alloc, sections.info, length, sections.order)?;
    for i in 0..index.count() {
        let header = index.header(i)?;
        print_functions(&rt, &sections, &header)?;
    }
    Ok(())
}

/// Prints the functions of one unit.
fn print_functions<R: Print + AllocGlobal>(
    rt: &R,
    sections: &Sections<'_>,
    header: &UnitHeader,
) -> Result<()>
    requires unit { IsUnitOf (sections_view sections.now) header.now }
    requires short { AreShort (sections_view sections.now) }
{
    let mut declarations = Scanner::new(sections.abbrev);
    let mut steps = Steps::start(());
    let facts = root_facts(&mut declarations, header, sections, &mut steps)?;
    let arena = Bump::new(rt.alloc());
    let entries = read_entries(&arena, &mut declarations, header, sections, &mut steps)?;
    for entry in entries {
        if entry.tag == tag::SUBPROGRAM {
            print_function(rt, sections, header, &facts.bases, entry)?;
        }
    }
    Ok(())
}

/// Prints one function: its address, or that it has none, as one that is inlined everywhere.
fn print_function<R: Print>(
    rt: &R,
    sections: &Sections<'_>,
    header: &UnitHeader,
    bases: &Bases,
    entry: &Entry<'_>,
) -> Result<()>
    requires { IsAddressSize header.now.address_size }
{
    let name = name_of(entry, header, sections, bases)?;
    match address_of(entry, header, sections, bases)? {
        Some(address) => println!(rt; "{name} at {address:#x}")?,
        None => println!(rt; "{name} at no address")?,
    }
    Ok(())
}

/// The function's name, or `?` where it has none.
fn name_of<'f>(
    entry: &Entry<'f>,
    header: &UnitHeader,
    sections: &Sections<'f>,
    bases: &Bases,
) -> Result<&'f str> {
    for attr in entry.attrs {
        if attr.name == attribute::NAME {
            match attr.raw {
                Raw::Text(_) | Raw::TextOffset(_) | Raw::LineTextOffset(_) | Raw::TextIndex(_) => {
                    let text = resolve_text(&attr.raw, header, sections, bases)?;
                    return Ok(str::from_utf8(text)?);
                }
                _ => {}
            }
        }
    }
    Ok("?")
}

/// The address of the function's first instruction, where it has one.
fn address_of(
    entry: &Entry<'_>,
    header: &UnitHeader,
    sections: &Sections<'_>,
    bases: &Bases,
) -> Result<Option<u64>>
    requires { IsAddressSize header.now.address_size }
{
    for attr in entry.attrs {
        if attr.name == attribute::LOW_PC {
            match attr.raw {
                Raw::Address(_) | Raw::AddressIndex(_) => {
                    return Ok(Some(resolve_address(&attr.raw, header, sections, bases)?));
                }
                _ => {}
            }
        }
    }
    Ok(None)
}
