//! Properties of two nodes that a condition asks to be one text.
ghost use Rattle.std.specs.Prelude.{◌≡◌, ◌∷◌, [], IfSome, true};
ghost use Rattle.gq_base.specs.declared.Kind.TheVariants.{Str as string};
ghost use Rattle.gq_base.specs.declared.operator.CompareOp.TheVariants.{Equal as equal};
ghost use Rattle.gq_dict.specs.Texts.{IsAscending};
ghost use Rattle.gq_expr.specs.Reading.{node_property, property_at};
ghost use Rattle.gq_filter.specs.Cells.{IsInLane};
ghost use Rattle.gq_filter.specs.Equal.{node_cell};
ghost use Rattle.gq_plan.specs.Conditions.{passes};
ghost use Rattle.gq_plan.specs.Rows.{as_read};
ghost use Rattle.gq_plan.specs.Soundness.{IsSound};
ghost use Rattle.gq_plan.specs.declared.assignment.Assignment.{Assignment};
ghost use Rattle.gq_same_texts.specs.Same.{HaveOneText};

use gq_base::{CompareOp, Kind, Text};
use gq_dict::Dict;
use gq_expr::{CompareOperand, Expr};
use gq_filter::{NodeColumn, node_feed};
use gq_plan::{Assignment, NamedExpr, Typed};
use gq_store::Graph;

/// A text property of a node variable: its cells are codes of a dictionary.
#[derive(Clone, Copy)]
pub struct TextColumn<'g> {
    pub cells: NodeColumn<'g>,
    pub dict: &'g Dict,
}

/// Text properties of two node variables that are asked to be equal.
#[derive(Clone, Copy)]
pub struct EqualTexts<'g> {
    pub left: TextColumn<'g>,
    pub right: TextColumn<'g>,
}

// A property of a node variable.
#[derive(Clone, Copy)]
struct Property<'e> {
    node: u32,
    name: &'e Text,
}

// Properties of two node variables.
#[derive(Clone, Copy)]
struct TwoProperties<'e> {
    left: Property<'e>,
    right: Property<'e>,
}

/// Properties of two node variables that are known and one text wherever a condition is true, if it is
/// seen to ask for that and for nothing else.
pub fn equal_texts<'g>(
    graph: &'g Graph,
    typed: &Typed,
    condition: &'g NamedExpr,
) -> Option<EqualTexts<'g>>
    requires { IsSound graph.now.catalog typed.now }
    ensures { IfSome result (λ e. (row : Assignment)
        → passes graph.now (as_read typed.now row) condition.now ≡ true → HaveOneText e row) }
{
    let asked = equal_properties(condition.expr.get())?;
    let left = text_column(graph, typed, asked.left.node, asked.left.name)?;
    let right = text_column(graph, typed, asked.right.node, asked.right.name)?;
    Some(EqualTexts { left, right })
}

// The properties of two node variables that an expression asks to be equal, if it asks for nothing
// else.
fn equal_properties(expr: &Expr) -> Option<TwoProperties<'_>>
    ensures { IfSome result (λ p. expr.now ≡ Expr.Compare
        (Expr.NodeProperty p.left.node p.left.name.now)
        (record { op = equal; expr = Expr.NodeProperty p.right.node p.right.name.now } ∷ [])) }
{
    match expr {
        Expr::Compare(first, terms) => {
            let left = property_of(first.get())?;
            let right = equal_to(terms.as_slice())?;
            Some(TwoProperties { left, right })
        }
        _ => None,
    }
}

// The property to which a single comparison asks to be equal.
fn equal_to(terms: &[CompareOperand]) -> Option<Property<'_>>
    ensures { IfSome result (λ p. terms.now
        ≡ record { op = equal; expr = Expr.NodeProperty p.node p.name.now } ∷ []) }
{
    match terms {
        [term] => match term.op {
            CompareOp::Equal => property_of(&term.expr),
            _ => None,
        },
        _ => None,
    }
}

// The property of a node variable that an expression is.
fn property_of(expr: &Expr) -> Option<Property<'_>>
    ensures { IfSome result (λ p. expr.now ≡ Expr.NodeProperty p.node p.name.now) }
{
    match expr {
        Expr::NodeProperty(node, name) => Some(Property { node: *node, name }),
        _ => None,
    }
}

// The column of a property of a node variable, if its table has the property and it is one of texts.
fn text_column<'g>(
    graph: &'g Graph,
    typed: &Typed,
    node: u32,
    name: &'g Text,
) -> Option<TextColumn<'g>>
    requires { IsSound graph.now.catalog typed.now }
    ensures text { IfSome result (λ c. (row : Assignment) → IsInLane string c.dict.now (property_at
        (node_property graph.now) ((as_read typed.now row).nodes node) name.now)
        (node_cell c.cells row)) }
    ensures ascending { IfSome result (λ c. IsAscending c.dict.now) }
{
    let table = *typed.nodes.get(node as usize)?;
    let feed = node_feed(graph, node, table, name)?;
    match feed.property.kind() {
        Kind::Str => Some(TextColumn {
            cells: NodeColumn {
                node,
                column: feed.property.column(),
            },
            dict: feed.property.dict(),
        }),
        Kind::Int => None,
        Kind::Flag => None,
    }
}
