//! The commands that print of one file, and their names on a command line.

ghost use Rattle.std.specs.Prelude.{◌≡◌};
ghost use Rattle.dw_words.specs.Requests.{command_named, list_command_named};

/// A command that reads one file and takes no option.
#[derive(Clone, Copy, Debug, PartialEq, Eq)]
pub enum Command {
    /// One line per unit.
    Units,
    /// One line per section of the file.
    Sections,
    /// All abbreviation tables.
    Abbrev,
    /// The line table of every unit that has one.
    Lines,
    /// The range and location lists of every entry.
    Ranges,
}

/// The command of a name, where there is one.
#[tactic(auto, unfolding(crate::specs::Requests::command_named))]
pub fn find_command(name: &str) -> Option<Command>
    ensures { result ≡ command_named name.now }
{
    match name {
        "units" => Some(Command::Units),
        "sections" => Some(Command::Sections),
        "abbrev" => Some(Command::Abbrev),
        _ => find_list_command(name),
    }
}

/// The same for the commands that print lists of a unit.
#[tactic(auto, unfolding(crate::specs::Requests::list_command_named))]
fn find_list_command(name: &str) -> Option<Command>
    ensures { result ≡ list_command_named name.now }
{
    match name {
        "lines" => Some(Command::Lines),
        "ranges" => Some(Command::Ranges),
        _ => None,
    }
}
