//! The numbers of commands.

ghost use Rattle.std.specs.Prelude.{◌≡◌};
ghost use Rattle.dwtool_c.specs.FileTexts.{file_command};
ghost use Rattle.dwtool_c.specs.Texts.{unit_command};

/// `units`: one line per unit.
pub const UNITS: u32 = 0;
/// `sections`: one line per section of the file.
pub const SECTIONS: u32 = 1;
/// `abbrev`: all abbreviation tables.
pub const ABBREV: u32 = 2;
/// `dump`: every unit, entry and attribute.
pub const DUMP: u32 = 3;
/// `lines`: the line tables.
pub const LINES: u32 = 4;
/// `ranges`: all range and location lists.
pub const RANGES: u32 = 5;

/// A command that prints something of each unit.
#[derive(Clone, Copy, Debug, PartialEq, Eq)]
pub(crate) enum UnitCommand {
    /// The line of each unit.
    Units,
    /// Each unit with its entries.
    Dump,
    /// The line table of each unit.
    Lines,
    /// The range lists and location lists of each unit.
    Ranges,
}

/// The command of this number, if it prints something of each unit.
pub(crate) fn unit_command(number: u32) -> Option<UnitCommand>
    ensures { result ≡ unit_command number }
{
    match number {
        UNITS => Some(UnitCommand::Units),
        DUMP => Some(UnitCommand::Dump),
        LINES => Some(UnitCommand::Lines),
        RANGES => Some(UnitCommand::Ranges),
        _ => None,
    }
}

/// A command on a file.
#[derive(Clone, Copy, Debug, PartialEq, Eq)]
pub(crate) enum FileCommand {
    /// The line of each section.
    Sections,
    /// All abbreviation tables.
    Abbrev,
    /// A command that prints something of each unit.
    Each(UnitCommand),
}

/// The command of this number, if there is one.
pub(crate) fn file_command(number: u32) -> Option<FileCommand>
    ensures { result ≡ file_command number }
{
    match number {
        SECTIONS => Some(FileCommand::Sections),
        ABBREV => Some(FileCommand::Abbrev),
        _ => match unit_command(number) {
            Some(command) => Some(FileCommand::Each(command)),
            None => None,
        },
    }
}
