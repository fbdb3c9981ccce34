//! The line of a load that was refused.

ghost use Rattle.gq_io.specs.Causes.{HasCause};
ghost use Rattle.gq_io.specs.Outside.{Writes};
ghost use Rattle.gq_shell.specs.LoadLines.{in_field, in_file, in_record, load_line, on_line};
ghost use Rattle.gq_shell.specs.LoadLines.{place_line};

use gq_base::Text;
use gq_io::{Failed, Sink, write_all};
use gq_loader::LoadRefusal;
use gq_render::{Piece, write_line};

/// Writes the line of a refusal: its name, and where it is.
pub fn write_load_line<O: Sink>(out: &mut O, refusal: &LoadRefusal) -> Result<(), Failed>
    ensures bytes { Writes (O.taken out.old) (O.taken out.new) (load_line refusal.now) result }
    ensures cause { HasCause (O.faults out.old) (O.faults out.new) result }
{
    write_all(out, b"load: ")?;
    write_all(out, refusal.name().as_bytes())?;
    write_place(out, refusal)
}

fn write_place<O: Sink>(out: &mut O, refusal: &LoadRefusal) -> Result<(), Failed>
    ensures bytes { Writes (O.taken out.old) (O.taken out.new) (place_line refusal.now) result }
    ensures cause { HasCause (O.faults out.old) (O.faults out.new) result }
{
    match refusal {
        LoadRefusal::NoFile { name } => in_file(out, name),
        LoadRefusal::FileTooLong { name } => in_file(out, name),
        LoadRefusal::BadLine { line } => on_line(out, *line),
        LoadRefusal::LabelRepeated { line } => on_line(out, *line),
        LoadRefusal::TypeRepeated { line } => on_line(out, *line),
        LoadRefusal::NoSuchLabel { line } => on_line(out, *line),
        LoadRefusal::TooManyTables { line } => on_line(out, *line),
        LoadRefusal::BadHeader { file } => in_file(out, file),
        LoadRefusal::TooManyProperties { file } => in_file(out, file),
        LoadRefusal::TooManyRows { file } => in_file(out, file),
        LoadRefusal::FieldCount { file, number } => in_record(out, file, *number),
        LoadRefusal::BadField {
            file,
            number,
            column,
        } => in_field(out, file, *number, *column),
        LoadRefusal::NullKey { file, number } => in_record(out, file, *number),
        LoadRefusal::NoSuchNode {
            file,
            number,
            column,
        } => in_field(out, file, *number, *column),
        LoadRefusal::KeyRepeated { file, number } => in_record(out, file, *number),
        LoadRefusal::NotSingle { file, number } => in_record(out, file, *number),
        LoadRefusal::ReadFault { name } => in_file(out, name),
        LoadRefusal::Memory => write_line(out, &[]),
    }
}

fn on_line<O: Sink>(out: &mut O, number: u32) -> Result<(), Failed>
    ensures bytes { Writes (O.taken out.old) (O.taken out.new) (on_line number) result }
    ensures cause { HasCause (O.faults out.old) (O.faults out.new) result }
{
    let pieces = [Piece::Plain(" line "), Piece::Number(number as usize)];
    write_line(out, &pieces)
}

fn in_file<O: Sink>(out: &mut O, file: &Text) -> Result<(), Failed>
    ensures bytes { Writes (O.taken out.old) (O.taken out.new) (in_file file.now) result }
    ensures cause { HasCause (O.faults out.old) (O.faults out.new) result }
{
    let pieces = [Piece::Plain(" "), Piece::Name(file.as_str())];
    write_line(out, &pieces)
}

fn in_record<O: Sink>(out: &mut O, file: &Text, number: u32) -> Result<(), Failed>
    ensures bytes { Writes (O.taken out.old) (O.taken out.new) (in_record file.now number) result }
    ensures cause { HasCause (O.faults out.old) (O.faults out.new) result }
{
    let pieces = [
        Piece::Plain(" "),
        Piece::Name(file.as_str()),
        Piece::Plain(" record "),
        Piece::Number(number as usize),
    ];
    write_line(out, &pieces)
}

fn in_field<O: Sink>(out: &mut O, file: &Text, number: u32, column: u32) -> Result<(), Failed>
    ensures bytes { Writes (O.taken out.old) (O.taken out.new)
        (in_field file.now number column) result }
    ensures cause { HasCause (O.faults out.old) (O.faults out.new) result }
{
    let pieces = [
        Piece::Plain(" "),
        Piece::Name(file.as_str()),
        Piece::Plain(" record "),
        Piece::Number(number as usize),
        Piece::Plain(" column "),
        Piece::Number(column as usize),
    ];
    write_line(out, &pieces)
}
