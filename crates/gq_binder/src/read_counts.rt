//! How many different properties of variables a query reads.
ghost use Rattle.std.specs.Prelude.{◌≡◌, ◌++◌, ◌+◌, IfOk, OnOk, length, map};
ghost use Rattle.gq_bound.specs.Checks.{Checks};
ghost use Rattle.gq_bound.specs.steps.Parts.{clause_reads, own_patterns, parts_reads, reads_in};
ghost use Rattle.gq_bound.specs.Refusals as refusals;
ghost use Rattle.gq_bound.specs.Refusals.{entries_read, first_of_all};
ghost use Rattle.gq_plan.specs.Reads.{distinct, property, with_reads};
ghost use Rattle.gq_scopes.specs.PathPatterns.{path_pattern};

use gq_base::Memory;
use gq_bound::{BindRefusal, ClauseParts, QueryParts, SharedTest};
use gq_plan::{NamedExpr, PropertyReads};
use gq_scopes::{MapEntry, Pattern, Variable, number};
use std::alloc::Global;

const MAX_READS: usize = 64;

/// There are too many different pairs of a variable and a property.
#[tactic(auto, using(gq_bound::proofs::RefusalLemmas::firsts))]
pub(crate) fn too_many_reads(alloc: Global, parts: &QueryParts<'_>) -> Result<(), BindRefusal>
    ensures { Checks (refusals.too_many_reads
        (parts_reads parts.now) parts.now.pattern parts.now.exists
        (own_patterns parts.now.optionals)) result }
{
    if count_all_reads(alloc, parts)? > MAX_READS {
        return Err(BindRefusal::TooManyReads);
    }
    many_clause_reads(alloc, parts.optionals.as_slice())?;
    many_reads_alone(alloc, parts.exists.as_slice())
}

// How many different properties of variables all maps and the conjuncts of values of all clauses
// read.
#[tactic(auto, using(gq_bound::proofs::ReadingLemmas::counted_alone))]
fn count_all_reads<'p>(alloc: Global, parts: &'p QueryParts<'p>) -> Result<usize, Memory>
    ensures { let pattern = parts.now.pattern in
        let paths = refusals.path_reads (length pattern.names) (length pattern.rels)
        parts.now.exists in
        let all = parts_reads parts.now ++ paths in
        IfOk result (λ n. n ≡ length (distinct all)) }
{
    let mut reads = PropertyReads::new(alloc);
    add_all_reads(&mut reads, parts)?;
    Ok(reads.len())
}

// Takes what all maps and the conjuncts of values of all clauses read.
#[tactic(auto, using(gq_plan::proofs::ReadLemmas::with_reads_append))]
fn add_all_reads<'p>(reads: &mut PropertyReads<'p>, parts: &'p QueryParts<'p>) -> Result<(), Memory>
    ensures { let pattern = parts.now.pattern in
        let paths = refusals.path_reads (length pattern.names) (length pattern.rels)
        parts.now.exists in
        OnOk result (reads.new ≡ with_reads reads.old (parts_reads parts.now ++ paths)) }
{
    add_maps(reads, &parts.pattern)?;
    add_reads(reads, parts.conjuncts.as_slice())?;
    add_clause_reads(reads, parts.optionals.as_slice())?;
    add_path_reads(reads, &parts.pattern, parts.exists.as_slice())
}

// Takes what the maps of the paths of tests read, of variables behind those of a pattern.
fn add_path_reads<'e>(
    reads: &mut PropertyReads<'e>,
    pattern: &Pattern<'_>,
    tests: &'e [SharedTest<'e>],
) -> Result<(), Memory>
    ensures { OnOk result (reads.new ≡ with_reads reads.old
        (refusals.path_reads (length pattern.now.names) (length pattern.now.rels) tests.now)) }
{
    let mut nodes = number(pattern.names().len())?;
    let mut rels = number(pattern.rels().len())?;
    for test in tests {
        add_path(reads, test, &mut nodes, &mut rels)?;
    }
    Ok(())
}

// Takes what the maps of one path read, of variables behind so many, and counts its variables.
fn add_path<'e>(
    reads: &mut PropertyReads<'e>,
    test: &'e SharedTest<'e>,
    nodes: &mut u32,
    rels: &mut u32,
) -> Result<(), Memory>
    ensures reads { let entries = (path_pattern test.now.test.path).entries in
        OnOk result (reads.new ≡ with_reads reads.old
        (entries_read test.now.nodes nodes.old rels.old entries)) }
    ensures nodes { OnOk result (nodes.new
        ≡ nodes.old + length (path_pattern test.now.test.path).names) }
    ensures rels { OnOk result (rels.new
        ≡ rels.old + length (path_pattern test.now.test.path).rels) }
{
    add_pattern(reads, test.nodes.as_slice(), test.pattern(), nodes, rels)
}

// The same of the pattern of a path, whose first variables are these of the query.
fn add_pattern<'e>(
    reads: &mut PropertyReads<'e>,
    shared: &[u32],
    path: &Pattern<'e>,
    nodes: &mut u32,
    rels: &mut u32,
) -> Result<(), Memory>
    ensures reads { OnOk result (reads.new
        ≡ with_reads reads.old (entries_read shared.now nodes.old rels.old path.now.entries)) }
    ensures nodes { OnOk result (nodes.new ≡ nodes.old + length path.now.names) }
    ensures rels { OnOk result (rels.new ≡ rels.old + length path.now.rels) }
{
    add_entries(reads, shared, *nodes, *rels, path.entries())?;
    *nodes = plus(*nodes, path.names().len())?;
    *rels = plus(*rels, path.rels().len())?;
    Ok(())
}

fn add_entries<'e>(
    reads: &mut PropertyReads<'e>,
    shared: &[u32],
    nodes: u32,
    rels: u32,
    entries: &[MapEntry<'e>],
) -> Result<(), Memory>
    ensures { OnOk result (reads.new
        ≡ with_reads reads.old (entries_read shared.now nodes rels entries.now)) }
{
    for entry in entries {
        let variable = placed(shared, nodes, rels, entry.variable)?;
        reads.add(variable, &entry.entry.key)?;
    }
    Ok(())
}

// A variable of a path's pattern among those of the query.
fn placed(shared: &[u32], nodes: u32, rels: u32, variable: Variable) -> Result<Variable, Memory>
    ensures { IfOk result (λ v. v ≡ refusals.placed shared.now nodes rels variable) }
{
    match variable {
        Variable::Node(own) => match shared.get(own as usize) {
            Some(known) => Ok(Variable::Node(*known)),
            None => Ok(Variable::Node(plus(nodes, own as usize)?)),
        },
        Variable::Rel(own) => Ok(Variable::Rel(plus(rels, own as usize)?)),
    }
}

fn plus(number: u32, more: usize) -> Result<u32, Memory>
    ensures { IfOk result (λ n. n ≡ number + more) }
{
    if more > (4_294_967_295 - number) as usize {
        return Err(Memory::Limit);
    }
    Ok(number + more as u32)
}

fn many_reads_alone(alloc: Global, tests: &[SharedTest<'_>]) -> Result<(), BindRefusal>
    ensures { Checks (refusals.first_of_all (map refusals.reads_alone tests.now)) result }
{
    for test in tests {
        reads_alone(alloc, test)?;
    }
    Ok(())
}

fn reads_alone(alloc: Global, test: &SharedTest<'_>) -> Result<(), BindRefusal>
    ensures { Checks (refusals.reads_alone test.now) result }
{
    maps_alone(alloc, test.pattern())
}

// The maps of an OPTIONAL MATCH clause by itself read too much.
fn many_clause_reads(alloc: Global, clauses: &[ClauseParts<'_>]) -> Result<(), BindRefusal>
    ensures { Checks
        (first_of_all (map refusals.maps_alone (own_patterns clauses.now))) result }
{
    for clause in clauses {
        maps_alone(alloc, &clause.pattern)?;
    }
    Ok(())
}

fn maps_alone(alloc: Global, pattern: &Pattern<'_>) -> Result<(), BindRefusal>
    ensures { Checks (refusals.maps_alone pattern.now) result }
{
    if count_reads(alloc, pattern.entries())? > MAX_READS {
        Err(BindRefusal::TooManyReads)
    } else {
        Ok(())
    }
}

// How many different properties of variables entries read.
#[tactic(auto, using(gq_bound::proofs::ReadingLemmas::counted_alone))]
fn count_reads(alloc: Global, entries: &[MapEntry<'_>]) -> Result<usize, Memory>
    ensures { IfOk result (λ n. n
        ≡ length (distinct (map (λ e. property e.variable e.entry.key) entries.now))) }
{
    let mut reads = PropertyReads::new(alloc);
    add_own(&mut reads, entries)?;
    Ok(reads.len())
}

// Takes what all maps of patterns read.
fn add_maps<'e>(reads: &mut PropertyReads<'e>, pattern: &'e Pattern<'e>) -> Result<(), Memory>
    ensures { OnOk result (reads.new ≡ with_reads reads.old
        (map (λ e. property e.variable e.entry.key) pattern.now.entries)) }
{
    add_own(reads, pattern.entries())
}

fn add_own<'e>(reads: &mut PropertyReads<'e>, entries: &[MapEntry<'e>]) -> Result<(), Memory>
    ensures { OnOk result (reads.new ≡ with_reads reads.old
        (map (λ e. property e.variable e.entry.key) entries.now)) }
{
    for entry in entries {
        reads.add(entry.variable, &entry.entry.key)?;
    }
    Ok(())
}

fn add_reads<'e>(reads: &mut PropertyReads<'e>, exprs: &'e [NamedExpr]) -> Result<(), Memory>
    ensures { OnOk result (reads.new ≡ with_reads reads.old (reads_in exprs.now)) }
{
    for named in exprs {
        reads.add_all(&named.expr)?;
    }
    Ok(())
}

// Takes what the conjuncts of OPTIONAL MATCH clauses read.
fn add_clause_reads<'e>(
    reads: &mut PropertyReads<'e>,
    clauses: &'e [ClauseParts<'e>],
) -> Result<(), Memory>
    ensures { OnOk result (reads.new ≡ with_reads reads.old (clause_reads clauses.now)) }
{
    for clause in clauses {
        add_reads(reads, clause.conjuncts.as_slice())?;
    }
    Ok(())
}
