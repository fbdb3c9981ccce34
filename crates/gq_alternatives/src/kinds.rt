//! The fields that the tables of an alternative give its variables.
ghost use Rattle.std.specs.Prelude.{◌≡◌, [], ◌∷◌, IfOk};
ghost use Rattle.gq_plan.specs.Soundness as soundness;

use gq_base::{Catalog, List, Memory, copy_all};
use gq_expr::{FieldList, Kinds};
use gq_plan::TypedRel;
use std::alloc::Global;

/// The fields that tables give each variable: copies of those of the variable's table.
pub fn kinds_for(
    alloc: Global,
    catalog: &Catalog,
    tables: &[u32],
    rels: &[TypedRel],
) -> Result<Kinds, Memory>
    ensures { IfOk result (λ k. k ≡ soundness.kinds_for catalog.now tables.now rels.now) }
{
    Ok(Kinds {
        nodes: node_kinds(alloc, catalog, tables)?,
        rels: rel_kinds(alloc, catalog, rels)?,
    })
}

fn node_kinds(alloc: Global, catalog: &Catalog, tables: &[u32]) -> Result<List<FieldList>, Memory>
    ensures { IfOk result (λ ks. ks ≡ (soundness.kinds_for catalog.now tables.now []).nodes) }
{
    let mut kinds = List::new(alloc);
    for table in tables {
        let fields = node_fields(alloc, catalog, *table)?;
        kinds.push(fields)?;
    }
    Ok(kinds)
}

fn rel_kinds(alloc: Global, catalog: &Catalog, rels: &[TypedRel]) -> Result<List<FieldList>, Memory>
    ensures { IfOk result (λ ks. ks ≡ (soundness.kinds_for catalog.now [] rels.now).rels) }
{
    let mut kinds = List::new(alloc);
    for rel in rels {
        let fields = rel_fields(alloc, catalog, rel)?;
        kinds.push(fields)?;
    }
    Ok(kinds)
}

// The fields of a node table; none where there is no such table.
fn node_fields(alloc: Global, catalog: &Catalog, table: u32) -> Result<FieldList, Memory>
    ensures { IfOk result (λ fs.
        fs ∷ [] ≡ (soundness.kinds_for catalog.now (table ∷ []) []).nodes) }
{
    if table < catalog.node_tables() {
        copy_all(alloc, catalog.node_table(table).fields.as_slice())
    } else {
        Ok(List::new(alloc))
    }
}

// The fields of a relationship's table; none where there is no such table.
fn rel_fields(alloc: Global, catalog: &Catalog, rel: &TypedRel) -> Result<FieldList, Memory>
    ensures { IfOk result (λ fs.
        fs ∷ [] ≡ (soundness.kinds_for catalog.now [] (rel.now ∷ [])).rels) }
{
    if rel.table < catalog.rel_tables() {
        copy_all(alloc, catalog.rel_table(rel.table).fields.as_slice())
    } else {
        Ok(List::new(alloc))
    }
}
