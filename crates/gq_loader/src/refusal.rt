//! Why the files give no graph.
ghost use Rattle.std.specs.Prelude.{◌≡◌, IfOk};
ghost use Rattle.gq_loader.specs.Refusals.{name_of, of_manifest, of_table};
ghost use Rattle.gq_loader.specs.steps.Answers.{stopped_by};
ghost use Rattle.gq_loader.specs.declared.refusal.LoadRefusal.TheVariants as refusal;

use gq_base::{Memory, Text};
use gq_manifest::ManifestRefusal;
use gq_tables::{TableRefusal, TableStop};
use std::alloc::Global;

/// Why there is no graph: the first refusal, in the order in which the files are read, or a call of
/// the files that failed, or want of memory. Lines of the manifest, records, the header among them,
/// and the columns of their fields are counted from 1.
#[derive(Debug, Drop)]
pub enum LoadRefusal {
    /// There is no file of this name.
    NoFile {
        name: Text,
    },
    /// The file has more bytes than a file may have, or than are left for all files together.
    FileTooLong {
        name: Text,
    },
    /// The line is not UTF-8, or not of one of the two forms.
    BadLine {
        line: u32,
    },
    /// The line's word is that of an earlier line, or a label stands twice in it.
    LabelRepeated {
        line: u32,
    },
    /// The line's type and both its words are together those of an earlier line.
    TypeRepeated {
        line: u32,
    },
    /// A word that the line goes from or to is that of no earlier node line.
    NoSuchLabel {
        line: u32,
    },
    /// The line is the 65th of its form.
    TooManyTables {
        line: u32,
    },
    /// There is no record, or the first is not of the form of a header.
    BadHeader {
        file: Text,
    },
    /// The header names more than 64 properties.
    TooManyProperties {
        file: Text,
    },
    /// A record is one more after the header than there may be.
    TooManyRows {
        file: Text,
    },
    /// The record has another number of fields than the header.
    FieldCount {
        file: Text,
        number: u32,
    },
    /// The field is not empty, and not of its kind.
    BadField {
        file: Text,
        number: u32,
        column: u32,
    },
    /// The key of a node is empty.
    NullKey {
        file: Text,
        number: u32,
    },
    /// An end of a relationship is empty, or is no key of its table.
    NoSuchNode {
        file: Text,
        number: u32,
        column: u32,
    },
    /// The key of a node is that of an earlier one.
    KeyRepeated {
        file: Text,
        number: u32,
    },
    /// An end of a relationship has one already, and the multiplicity of the table allows no
    /// second.
    NotSingle {
        file: Text,
        number: u32,
    },
    /// A call of the files failed while this one was chosen or read.
    ReadFault {
        name: Text,
    },
    /// There was not enough memory.
    Memory,
}

impl LoadRefusal {
    /// Its name.
    pub fn name(&self) -> &'static str
        ensures { result.now ≡ name_of self.now }
    {
        match self {
            LoadRefusal::NoFile { .. } => "NoFile",
            LoadRefusal::FileTooLong { .. } => "FileTooLong",
            LoadRefusal::BadLine { .. } => "BadLine",
            LoadRefusal::LabelRepeated { .. } => "LabelRepeated",
            LoadRefusal::TypeRepeated { .. } => "TypeRepeated",
            LoadRefusal::NoSuchLabel { .. } => "NoSuchLabel",
            LoadRefusal::TooManyTables { .. } => "TooManyTables",
            LoadRefusal::BadHeader { .. } => "BadHeader",
            LoadRefusal::TooManyProperties { .. } => "TooManyProperties",
            LoadRefusal::TooManyRows { .. } => "TooManyRows",
            LoadRefusal::FieldCount { .. } => "FieldCount",
            LoadRefusal::BadField { .. } => "BadField",
            LoadRefusal::NullKey { .. } => "NullKey",
            LoadRefusal::NoSuchNode { .. } => "NoSuchNode",
            LoadRefusal::KeyRepeated { .. } => "KeyRepeated",
            LoadRefusal::NotSingle { .. } => "NotSingle",
            LoadRefusal::ReadFault { .. } => "ReadFault",
            LoadRefusal::Memory => "Memory",
        }
    }

    /// Why a load ends where the file of this name gives no table.
    pub(crate) fn at_table(alloc: Global, file: &str, why: TableStop) -> Result<LoadRefusal, Memory>
        ensures { IfOk result (λ e. e ≡ stopped_by file.now why) }
    {
        match why {
            TableStop::Refused(why) => Ok(LoadRefusal::of_table(Text::new(alloc, file)?, why)),
            TableStop::Memory => Ok(LoadRefusal::Memory),
        }
    }

    // The refusal of the table in the file of this name.
    fn of_table(file: Text, why: TableRefusal) -> LoadRefusal
        ensures { result ≡ of_table file why }
    {
        match why {
            TableRefusal::BadHeader => LoadRefusal::BadHeader { file },
            TableRefusal::TooManyProperties => LoadRefusal::TooManyProperties { file },
            TableRefusal::TooManyRows => LoadRefusal::TooManyRows { file },
            TableRefusal::FieldCount { number } => LoadRefusal::FieldCount { file, number },
            TableRefusal::BadField { number, column } => LoadRefusal::BadField {
                file,
                number,
                column,
            },
            TableRefusal::NullKey { number } => LoadRefusal::NullKey { file, number },
            TableRefusal::NoSuchNode { number, column } => LoadRefusal::NoSuchNode {
                file,
                number,
                column,
            },
            TableRefusal::KeyRepeated { number } => LoadRefusal::KeyRepeated { file, number },
            TableRefusal::NotSingle { number } => LoadRefusal::NotSingle { file, number },
        }
    }
}

impl From<ManifestRefusal> for LoadRefusal {
    ghost from_gives = { λ why e. e ≡ of_manifest why };

    fn from(why: ManifestRefusal) -> LoadRefusal {
        match why {
            ManifestRefusal::BadLine { line } => LoadRefusal::BadLine { line },
            ManifestRefusal::LabelRepeated { line } => LoadRefusal::LabelRepeated { line },
            ManifestRefusal::TypeRepeated { line } => LoadRefusal::TypeRepeated { line },
            ManifestRefusal::NoSuchLabel { line } => LoadRefusal::NoSuchLabel { line },
            ManifestRefusal::TooManyTables { line } => LoadRefusal::TooManyTables { line },
            ManifestRefusal::Memory => LoadRefusal::Memory,
        }
    }
}

impl From<Memory> for LoadRefusal {
    ghost from_gives = { λ _ e. e ≡ refusal.Memory };

    fn from(_memory: Memory) -> LoadRefusal {
        LoadRefusal::Memory
    }
}
