//! The questions that are asked of the sample graph.
ghost use Rattle.std.specs.Prelude.{◌≡◌, ◌-◌, ◌≤◌, Some, slice_get};
ghost use Rattle.gq_sample.specs.Questions.{questions};

/// The question of this number, from 1 to 6, as the text of a query without a `;`: a filter, a pattern of one
/// relationship, one over two tables, a pattern of two relationships, two paths that meet, and distinct values.
pub fn question(number: u32) -> &'static str
    requires least { 1 ≤ number }
    requires most { number ≤ 6 }
    ensures { slice_get questions (number - 1) ≡ Some result.now }
{
    match number {
        1 => "MATCH (p:Person) WHERE p.age > 10 RETURN p.id ORDER BY p.id",
        2 =>
            "MATCH (a:Person)-[r:KNOWS]->(b) WHERE r.since IS NOT NULL RETURN a.id, b.id, r.since ORDER BY a.id, b.id, r.since",
        3 =>
            "MATCH (p:Person)-[:LIVES_IN]->(c:City) WHERE c.pop >= 1000 RETURN c.code, p.id ORDER BY p.id",
        4 =>
            "MATCH (a:Person)-[:KNOWS]->(b)-[:KNOWS]->(c) WHERE a.id <= 100 RETURN a.id, b.id, c.id ORDER BY a.id, b.id, c.id",
        5 =>
            "MATCH (a)-[:LIVES_IN]->(c), (b)-[:LIVES_IN]->(c) WHERE a.id <= 10 RETURN a.id, b.id ORDER BY a.id, b.id",
        _ => "MATCH (p:Person) RETURN DISTINCT p.name ORDER BY p.name LIMIT 5",
    }
}
