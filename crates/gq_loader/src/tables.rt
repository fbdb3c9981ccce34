//! The tables of a graph, each read from its file.
ghost use Rattle.std.specs.Prelude.{◌≡◌, ◌+◌, ◌<◌, ◌≤◌, ◌^◌, true, length, IfOk, OnOk};
ghost use Rattle.gq_base.specs.Valid.{is_valid};
ghost use Rattle.gq_manifest.specs.Manifests.{IsNumberOf};
ghost use Rattle.gq_loader.specs.Answers.{Answers};
ghost use Rattle.gq_loader.specs.Effects.{files_of};
ghost use Rattle.gq_loader.specs.steps.Answers.{AsMany, IsGoing, IsUnread, KeepsOthers, Leaves};
ghost use Rattle.gq_loader.specs.steps.Effects.{NamesOnly, NamesTable, Reads, told_of};
ghost use Rattle.gq_loader.specs.Files.{file_of};
ghost use Rattle.gq_loader.specs.Limits.{IsWithin, is_short};
ghost use Rattle.gq_loader.specs.Loads.{end_of, key_kind, take_nodes, take_rels, take_table};
ghost use Rattle.gq_manifest.specs.declared.manifest.TableNumber.TheVariants as table;
ghost use Rattle.gq_tables.specs.Answers.{Answers as TableAnswers, seen_end};
ghost use Rattle.gq_tables.specs.Rels.{rel_table_of};
ghost use Rattle.gq_tables.specs.Tables.{IsRelTable};

use crate::file::read_file;
use crate::limits::Limits;
use crate::refusal::LoadRefusal;
use gq_base::{Bytes, Field, Kind, RelTable};
use gq_io::Files;
use gq_manifest::TableNumber;
use gq_plain::PlainGraph;
use gq_tables::{End, RelTableRows, TableStop, read_nodes, read_rels, read_rels_within};
use std::alloc::Global;

/// A graph some of whose tables were read, and how many bytes their files have together.
#[derive(Drop)]
pub(crate) struct Loading {
    pub(crate) graph: PlainGraph,
    pub(crate) total: u32,
}

/// Reads the table of this number from its file.
pub(crate) fn take_table<F: Files>(
    alloc: Global,
    files: &mut F,
    limits: &Limits,
    loading: &mut Loading,
    table: TableNumber,
) -> Result<(), LoadRefusal>
    requires number { IsNumberOf loading.old.graph.catalog table }
    requires going { IsGoing limits.now loading.old }
    requires within { IsWithin limits.now }
    requires valid { is_valid loading.old.graph ≡ true }
    requires unread { IsUnread loading.old.graph table }
    ensures leaves { Leaves (F.held files.old)
        (λ names. take_table names limits.now loading.old table) loading.new result }
    ensures going { OnOk result (IsGoing limits.now loading.new) }
    ensures valid { OnOk result (is_valid loading.new.graph ≡ true) }
    ensures others { OnOk result (KeepsOthers table loading.old.graph loading.new.graph) }
    ensures tables { OnOk result (AsMany loading.old.graph.catalog loading.new.graph.catalog) }
    ensures files { OnOk result
        (files_of loading.new.graph.catalog ≡ files_of loading.old.graph.catalog) }
    ensures named { NamesTable loading.old.graph.catalog result }
    ensures reads { Reads limits.now.file_bytes
        (told_of F.held F.left F.faults F.misses files.old)
        (told_of F.held F.left F.faults F.misses files.new) result }
{
    match table {
        TableNumber::Node(number) => take_nodes(alloc, files, limits, loading, number),
        TableNumber::Rel(number) => take_rels(alloc, files, limits, loading, number),
    }
}

fn take_nodes<F: Files>(
    alloc: Global,
    files: &mut F,
    limits: &Limits,
    loading: &mut Loading,
    number: u32,
) -> Result<(), LoadRefusal>
    requires number { number < length loading.old.graph.catalog.nodes }
    requires going { IsGoing limits.now loading.old }
    requires within { IsWithin limits.now }
    requires valid { is_valid loading.old.graph ≡ true }
    requires unread { IsUnread loading.old.graph (table.Node number) }
    ensures leaves { Leaves (F.held files.old)
        (λ names. take_table names limits.now loading.old (table.Node number)) loading.new result }
    ensures going { OnOk result (IsGoing limits.now loading.new) }
    ensures valid { OnOk result (is_valid loading.new.graph ≡ true) }
    ensures others { OnOk result
        (KeepsOthers (table.Node number) loading.old.graph loading.new.graph) }
    ensures tables { OnOk result (AsMany loading.old.graph.catalog loading.new.graph.catalog) }
    ensures files { OnOk result
        (files_of loading.new.graph.catalog ≡ files_of loading.old.graph.catalog) }
    ensures named { NamesTable loading.old.graph.catalog result }
    ensures reads { Reads limits.now.file_bytes
        (told_of F.held F.left F.faults F.misses files.old)
        (told_of F.held F.left F.faults F.misses files.new) result }
{
    let file = loading.graph.catalog().node_table(number).file.as_str();
    let bytes = read_table_file(alloc, files, limits, loading.total, file)?;
    let read = match read_nodes(alloc, bytes.as_slice(), limits.nodes) {
        Ok(read) => read,
        Err(why) => return Err(LoadRefusal::at_table(alloc, file, why)?),
    };
    loading.total += bytes.len() as u32;
    loading.graph.set_node_fields(number, read.fields);
    loading.graph.set_node_rows(number, read.rows);
    Ok(())
}

fn take_rels<F: Files>(
    alloc: Global,
    files: &mut F,
    limits: &Limits,
    loading: &mut Loading,
    number: u32,
) -> Result<(), LoadRefusal>
    requires number { number < length loading.old.graph.catalog.rels }
    requires going { IsGoing limits.now loading.old }
    requires within { IsWithin limits.now }
    requires valid { is_valid loading.old.graph ≡ true }
    ensures leaves { Leaves (F.held files.old)
        (λ names. take_table names limits.now loading.old (table.Rel number)) loading.new result }
    ensures going { OnOk result (IsGoing limits.now loading.new) }
    ensures valid { OnOk result (is_valid loading.new.graph ≡ true) }
    ensures others { OnOk result
        (KeepsOthers (table.Rel number) loading.old.graph loading.new.graph) }
    ensures tables { OnOk result (AsMany loading.old.graph.catalog loading.new.graph.catalog) }
    ensures files { OnOk result
        (files_of loading.new.graph.catalog ≡ files_of loading.old.graph.catalog) }
    ensures named { NamesTable loading.old.graph.catalog result }
    ensures reads { Reads limits.now.file_bytes
        (told_of F.held F.left F.faults F.misses files.old)
        (told_of F.held F.left F.faults F.misses files.new) result }
{
    let table = loading.graph.catalog().rel_table(number);
    let file = table.file.as_str();
    let bytes = read_table_file(alloc, files, limits, loading.total, file)?;
    let read = match read_between(alloc, bytes.as_slice(), limits, loading, table) {
        Ok(read) => read,
        Err(why) => return Err(LoadRefusal::at_table(alloc, file, why)?),
    };
    loading.total += bytes.len() as u32;
    loading.graph.set_rel_fields(number, read.fields);
    loading.graph.set_rel_rows(number, read.rels);
    Ok(())
}

// The relationship table of a file with these bytes. One index of keys serves both of its ends
// where they are one node table.
fn read_between(
    alloc: Global,
    bytes: &[u8],
    limits: &Limits,
    loading: &Loading,
    table: &RelTable,
) -> Result<RelTableRows, TableStop>
    requires few_bytes { length bytes.now < 2 ^ 32 }
    requires going { IsGoing limits.now loading.now }
    requires within { IsWithin limits.now }
    requires from { table.now.from < length loading.now.graph.nodes }
    requires to { table.now.to < length loading.now.graph.nodes }
    ensures answers { TableAnswers (rel_table_of (end_of loading.now.graph table.now.from)
        (end_of loading.now.graph table.now.to) table.now.mult limits.now.rels bytes.now) result }
    ensures few { IfOk result (λ read. length read.rels ≤ limits.now.rels) }
    ensures valid { IfOk result (IsRelTable (end_of loading.now.graph table.now.from)
        (end_of loading.now.graph table.now.to) table.now.mult) }
{
    let source = end_of(&loading.graph, table.from);
    if table.from == table.to {
        return read_rels_within(alloc, bytes, source, table.mult, limits.rels);
    }
    let target = end_of(&loading.graph, table.to);
    read_rels(alloc, bytes, source, target, table.mult, limits.rels)
}

// The bytes of the file of a table, after so many bytes of the files of tables before it.
fn read_table_file<F: Files>(
    alloc: Global,
    files: &mut F,
    limits: &Limits,
    before: u32,
    name: &str,
) -> Result<Bytes, LoadRefusal>
    requires { before ≤ limits.now.total_bytes }
    ensures answers { Answers (F.held files.old)
        (λ names. file_of names (is_short limits.now before) name.now) result }
    ensures named { NamesOnly name.now result }
    ensures one { IfOk result (λ bytes. length bytes ≤ limits.now.file_bytes) }
    ensures all { IfOk result (λ bytes. before + length bytes ≤ limits.now.total_bytes) }
    ensures reads { Reads limits.now.file_bytes
        (told_of F.held F.left F.faults F.misses files.old)
        (told_of F.held F.left F.faults F.misses files.new) result }
{
    let most = limits.file_bytes.min(limits.total_bytes - before);
    read_file(alloc, files, name, most as usize)
}

// A node table as an end of a relationship table.
fn end_of(graph: &PlainGraph, number: u32) -> End<'_>
    requires { number < length graph.now.nodes }
    ensures { seen_end result ≡ end_of graph.now number }
{
    let fields = &graph.catalog().node_table(number).fields;
    End {
        kind: key_kind(fields.as_slice()),
        rows: graph.node_rows(number),
    }
}

fn key_kind(fields: &[Field]) -> Kind
    ensures { result ≡ key_kind fields.now }
{
    match fields {
        [key, ..] => key.kind,
        [] => Kind::Int,
    }
}
