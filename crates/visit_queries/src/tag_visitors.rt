//! The visitors that keep the named entries of some tags.

ghost use Rattle.std.specs.Prelude.{◌≡◌, ◌≤◌, [], ◌∷◌};
ghost use Rattle.visit_queries.specs.Kept.{is_function as is_function_tag, is_type as is_type_tag, is_variable as is_variable_tag};

use crate::kept_lines::KeptLines;
use crate::visitor::{EntryView, Turn, Visitor};
use dw_numbers::tag;
use std::alloc::{AllocError, Global};
use std::marker::Model;

/// Whether this is the tag of functions.
#[tactic(auto, unfolding(crate::specs::Kept::is_function))]
fn is_function(number: u64) -> bool
    ensures { result ≡ is_function_tag number }
{
    number == tag::SUBPROGRAM
}

/// Whether this is the tag of variables.
#[tactic(auto, unfolding(crate::specs::Kept::is_variable))]
fn is_variable(number: u64) -> bool
    ensures { result ≡ is_variable_tag number }
{
    number == tag::VARIABLE
}

/// Whether this is a tag of types that have names.
#[tactic(auto, unfolding(crate::specs::Kept::is_type))]
fn is_type(number: u64) -> bool
    ensures { result ≡ is_type_tag number }
{
    number == tag::ARRAY_TYPE
        || number == tag::CLASS_TYPE
        || number == tag::ENUMERATION_TYPE
        || number == tag::STRUCTURE_TYPE
        || number == tag::TYPEDEF
        || number == tag::UNION_TYPE
        || number == tag::BASE_TYPE
}

/// Keeps functions that have a name, and reports a line for each.
#[derive(Drop)]
pub struct Functions {
    lines: KeptLines,
}

impl Model for Functions {
    ghost use Rattle.std.specs.Prelude.{ℕ, List};
    ghost use Rattle.visit_queries.specs.Kept.{lines_state};

    ghost Value = { List ℕ };

    ghost view = { λ v. lines_state v.lines };
}

impl Functions {
    /// Has seen nothing, and keeps at most `limit` entries, which is at least 1. Takes no memory.
    pub fn new(alloc: Global, limit: u64) -> Functions
        requires { 1 ≤ limit }
        ensures { result ≡ limit ∷ [] }
    {
        Functions {
            lines: KeptLines::new(alloc, limit),
        }
    }
}

impl Visitor for Functions {
    ghost use Rattle.visit_queries.specs.Kept.{keep_tags, kept_text, is_function};

    ghost state = { λ v. v };

    ghost step = { λ v e s. keep_tags is_function e s };

    ghost text = { λ v s. kept_text s };

    fn see(&mut self, entry: EntryView<'_>) -> Result<Turn, AllocError> {
        self.lines.see(is_function(entry.tag), entry)
    }

    fn report(&self, out: &mut Vec<u8>) -> Result<(), AllocError> {
        self.lines.report(out)
    }
}

/// Keeps variables that have a name, and reports a line for each.
#[derive(Drop)]
pub struct Variables {
    lines: KeptLines,
}

impl Model for Variables {
    ghost use Rattle.std.specs.Prelude.{ℕ, List};
    ghost use Rattle.visit_queries.specs.Kept.{lines_state};

    ghost Value = { List ℕ };

    ghost view = { λ v. lines_state v.lines };
}

impl Variables {
    /// Has seen nothing, and keeps at most `limit` entries, which is at least 1. Takes no memory.
    pub fn new(alloc: Global, limit: u64) -> Variables
        requires { 1 ≤ limit }
        ensures { result ≡ limit ∷ [] }
    {
        Variables {
            lines: KeptLines::new(alloc, limit),
        }
    }
}

impl Visitor for Variables {
    ghost use Rattle.visit_queries.specs.Kept.{keep_tags, kept_text, is_variable};

    ghost state = { λ v. v };

    ghost step = { λ v e s. keep_tags is_variable e s };

    ghost text = { λ v s. kept_text s };

    fn see(&mut self, entry: EntryView<'_>) -> Result<Turn, AllocError> {
        self.lines.see(is_variable(entry.tag), entry)
    }

    fn report(&self, out: &mut Vec<u8>) -> Result<(), AllocError> {
        self.lines.report(out)
    }
}

/// Keeps types that have a name, and reports a line for each.
#[derive(Drop)]
pub struct Types {
    lines: KeptLines,
}

impl Model for Types {
    ghost use Rattle.std.specs.Prelude.{ℕ, List};
    ghost use Rattle.visit_queries.specs.Kept.{lines_state};

    ghost Value = { List ℕ };

    ghost view = { λ v. lines_state v.lines };
}

impl Types {
    /// Has seen nothing, and keeps at most `limit` entries, which is at least 1. Takes no memory.
    pub fn new(alloc: Global, limit: u64) -> Types
        requires { 1 ≤ limit }
        ensures { result ≡ limit ∷ [] }
    {
        Types {
            lines: KeptLines::new(alloc, limit),
        }
    }
}

impl Visitor for Types {
    ghost use Rattle.visit_queries.specs.Kept.{keep_tags, kept_text, is_type};

    ghost state = { λ v. v };

    ghost step = { λ v e s. keep_tags is_type e s };

    ghost text = { λ v s. kept_text s };

    fn see(&mut self, entry: EntryView<'_>) -> Result<Turn, AllocError> {
        self.lines.see(is_type(entry.tag), entry)
    }

    fn report(&self, out: &mut Vec<u8>) -> Result<(), AllocError> {
        self.lines.report(out)
    }
}
