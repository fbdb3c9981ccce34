//! The load of a graph: its manifest, and then the file of each table that the manifest names.
ghost use Rattle.std.specs.Prelude.{◌≡◌, ◌≢◌, true, All, AllPairs, IfOk};
ghost use Rattle.gq_base.specs.Valid.{is_valid};
ghost use Rattle.gq_manifest.specs.Manifests.{IsNumberOf};
ghost use Rattle.gq_loader.specs.Answers.{Answers};
ghost use Rattle.gq_loader.specs.steps.Answers.{IsFresh, IsUnread};
ghost use Rattle.gq_loader.specs.Effects.{ByFault, ByMiss, NamesFile, ReadsFew};
ghost use Rattle.gq_loader.specs.steps.Effects.{NamesOnly, Reads, told_of};
ghost use Rattle.gq_loader.specs.Limits.{IsWithin, most_bytes, most_manifest};
ghost use Rattle.gq_loader.specs.Loads.{beginning_of, load_of};

use crate::file::read_file;
use crate::limits::Limits;
use crate::refusal::LoadRefusal;
use crate::tables::{Loading, take_table};
use gq_base::List;
use gq_io::Files;
use gq_manifest::{Manifest, TableNumber, read_manifest};
use gq_plain::PlainGraph;
use gq_store::Graph;
use std::alloc::Global;

/// The most bytes of a manifest.
const MOST_MANIFEST: usize = 1_048_576;

// What a manifest gives: the graph of its tables, none of which was read, and the order in which
// they are.
#[derive(Drop)]
struct Beginning {
    loading: Loading,
    order: List<TableNumber>,
}

/// Loads the graph of the manifest of this name: the manifest first, and then the file of each of
/// its lines, in their order. The answer is the first refusal in that order, or the stored graph of
/// all files, which is valid. Want of memory may end a load at any time, also while the graph is
/// stored.
///
/// A file that two lines name is read twice. No file is kept longer than it takes to read its
/// table, and the rows that were read are moved into the stored graph, not copied.
pub fn load<F: Files>(
    alloc: Global,
    files: &mut F,
    manifest: &str,
    limits: &Limits,
) -> Result<Graph, LoadRefusal>
    requires { IsWithin limits.now }
    ensures loads { Answers (F.held files.old)
        (λ names. load_of manifest.now names limits.now) result }
    ensures valid { IfOk result (λ graph. is_valid graph ≡ true) }
    ensures faults { ByFault (F.faults files.old) (F.faults files.new) result }
    ensures named { NamesFile (F.held files.old) manifest.now result }
    ensures misses { ByMiss (F.misses files.old) (F.misses files.new) result }
    ensures held { F.held files.new ≡ F.held files.old }
    ensures few { ReadsFew (F.held files.old) (F.left files.new) (most_bytes limits.now) result }
{
    let Beginning { mut loading, order } = begin(alloc, files, manifest)?;
    for table in order.as_slice() {
        take_table(alloc, files, limits, &mut loading, *table)?;
    }
    Ok(Graph::build(alloc, loading.graph)?)
}

// Reads the manifest of this name.
fn begin<F: Files>(alloc: Global, files: &mut F, manifest: &str) -> Result<Beginning, LoadRefusal>
    ensures answers { Answers (F.held files.old) (λ names. beginning_of manifest.now names) result }
    ensures named { NamesOnly manifest.now result }
    ensures fresh { IfOk result (λ tables. IsFresh tables.loading) }
    ensures numbers { IfOk result (λ tables.
        All (IsNumberOf tables.loading.graph.catalog) tables.order) }
    ensures once { IfOk result (λ tables. AllPairs (λ a b. a ≢ b) tables.order) }
    ensures valid { IfOk result (λ tables. is_valid tables.loading.graph ≡ true) }
    ensures unread { IfOk result (λ tables. All (IsUnread tables.loading.graph) tables.order) }
    ensures reads { Reads most_manifest
        (told_of F.held F.left F.faults F.misses files.old)
        (told_of F.held F.left F.faults F.misses files.new) result }
{
    let text = read_file(alloc, files, manifest, MOST_MANIFEST)?;
    let Manifest { catalog, order } = read_manifest(alloc, text.as_slice())?;
    let loading = Loading {
        graph: PlainGraph::new(alloc, catalog)?,
        total: 0,
    };
    Ok(Beginning { loading, order })
}
