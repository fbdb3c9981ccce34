//! Conditions on a text of a node: that it ends with a literal, or has it as a part. Once many rows
//! were asked for, it is found out of all texts, as they stand side by side, and remembered.
ghost use Rattle.std.specs.Prelude.{◌≡◌, ◌∷◌, ◌<◌, ◌≤◌, ◌-◌, ◌+◌, ◌&&◌, ℕ, [], IfOk, IfSome, IsTrue};
ghost use Rattle.std.specs.Prelude.{false, length};
ghost use Rattle.gq_bits.specs.Places.{is_marked};
ghost use Rattle.gq_column.specs.Cells.{cell_at};
ghost use Rattle.gq_dict.specs.Texts.{text_at};
ghost use Rattle.gq_expr.specs.Operators.{occurs};
ghost use Rattle.gq_filter.specs.Rows.{count_in, row_in};
ghost use Rattle.gq_filter.specs.steps.Texts.{IsKnown, TextDecides};
ghost use Rattle.gq_filter.specs.steps.Texts.{code_in, is_in, row_passes, tester_of, text_passes};
ghost use Rattle.gq_plan.specs.Soundness.{IsSound};
ghost use Rattle.gq_row_sets.specs.Rows.{nothing_told};

use crate::conditions::text_of;
use crate::feeds::node_feed;
use crate::found::found_marks;
use crate::row_cells::cell_at;
use crate::rows::Rows;
use gq_base::{Kind, Memory, Text, TextTest};
use gq_bits::{Marks, VECTOR};
use gq_dict::Dict;
use gq_expr::{Expr, ExprTester, Tester};
use gq_plan::{Assignment, NamedExpr, Typed};
use gq_row_sets::RowSet;
use gq_store::{Graph, Property};
use memchr::memmem::Finder;
use std::alloc::Global;

// A text of so many bytes or fewer is searched place by place: a finder takes longer to begin.
const SHORT: usize = 48;

// To try so many codes takes about as long as to decide a row by its text: the texts of codes stand
// side by side, where a row waits for the bytes of its own.
const AHEAD: u32 = 8;

// The texts of a piece that have so many bytes together, sixteen each, are tried one by one as fast as
// by a search that ends in each of them.
const FEW_BYTES: usize = 32_768;

/// A text property of a node variable, and what its text is to have.
#[derive(Drop)]
pub(crate) struct PartTest<'g> {
    variable: u32,
    property: &'g Property,
    part: Part<'g>,
}

/// A part of a text: its end, or one that stands anywhere, with what is made once to find it in many.
#[derive(Drop)]
enum Part<'g> {
    End(&'g Text),
    Inner(Finder<'g>),
}

/// Which of the texts of a dictionary pass a test. Up to as many rows as an eighth of the texts are
/// decided text by text, so that a statement that asks for few rows, or stops early, tries no others.
/// Then all texts are tried, and from then on no row has to look at its text.
#[derive(Drop)]
pub(crate) struct CodeSet {
    pub(crate) known: RowSet,
    // How many rows are left to be asked for before the texts are tried.
    left: u32,
}

impl CodeSet {
    /// Nothing is known, and nothing will be.
    pub(crate) fn none(alloc: Global) -> CodeSet
        ensures { result.known ≡ nothing_told 0 }
    {
        CodeSet {
            known: RowSet::none(alloc),
            left: 0,
        }
    }

    /// Nothing is known yet. The memory for so many codes is taken.
    pub(crate) fn with_room(alloc: Global, codes: u32) -> Result<CodeSet, Memory>
        ensures { IfOk result (λ s. s.known ≡ nothing_told codes) }
    {
        let known = RowSet::with_room(alloc, codes)?;
        let left = codes / AHEAD;
        Ok(CodeSet { known, left })
    }

    /// The marked rows are asked for: tries all codes where enough were before. It takes no memory.
    pub(crate) fn ask(&mut self, test: &PartTest<'_>, marks: &Marks)
        requires { IsKnown test.now self.old.known }
        ensures { IsKnown test.now self.new.known }
    {
        if self.known.told() == self.known.next_end() {
            return;
        }
        if self.left > 0 {
            self.left = self.left.saturating_sub(marks.count());
            return;
        }
        let mut often = false;
        'pieces: for _ in 0..test.property.dict().len().div_ceil(VECTOR) {
            often = try_codes(&mut self.known, test, often);
        }
    }
}

// Tries the codes of the next piece, and says whether most of their texts pass. Where most of those
// before do, short texts are tried one by one, which takes less than a search that ends in each.
fn try_codes(known: &mut RowSet, test: &PartTest<'_>, often: bool) -> bool
    requires { IsKnown test.now known.old }
    ensures { IsKnown test.now known.new }
{
    let low = known.told();
    let high = known.next_end();
    let dict = test.property.dict();
    let alone = often && are_short(dict, low, high);
    let marks = marks_of(&test.part, dict, low, high, alone);
    let often = marks.count() > (high - low) / 2;
    let _ = known.tell(marks);
    often
}

// Whether the texts of a piece are short.
fn are_short(dict: &Dict, low: u32, high: u32) -> bool
    requires ordered { low ≤ high }
    requires inside { high ≤ length dict.now }
{
    dict.start(high).saturating_sub(dict.start(low)) <= FEW_BYTES
}

// Which of the texts from one code on have a part. One that stands anywhere is searched for in all of
// them at once, where they are not to be tried one by one.
fn marks_of(part: &Part<'_>, dict: &Dict, low: u32, high: u32, alone: bool) -> Marks
    requires ordered { low ≤ high }
    requires few { high - low ≤ VECTOR }
    requires inside { high ≤ length dict.now }
    ensures { (k : ℕ) → k < high - low
        → is_marked result k ≡ is_in part.now (text_at dict.now (low + k)) }
{
    match part {
        Part::End(_) => tried_marks(part, dict, low, high),
        Part::Inner(inner) => if alone || inner.needle().is_empty() {
            tried_marks(part, dict, low, high)
        } else {
            found_marks(dict, inner, low, high)
        },
    }
}

// The same, text by text.
fn tried_marks(part: &Part<'_>, dict: &Dict, low: u32, high: u32) -> Marks
    requires ordered { low ≤ high }
    requires few { high - low ≤ VECTOR }
    requires inside { high ≤ length dict.now }
    ensures { (k : ℕ) → k < high - low
        → is_marked result k ≡ is_in part.now (text_at dict.now (low + k)) }
{
    let mut marks = Marks::first(0);
    for place in 0..high - low {
        let has = is_in(part, dict.text(low + place));
        marks.set(place, has);
    }
    marks
}

/// How many codes the dictionary of a test has, if there is a test.
pub(crate) fn code_count(test: &Option<PartTest<'_>>) -> u32
    ensures { IfSome test.now (λ t. result ≡ length t.property.now.dict) }
{
    match test {
        None => 0,
        Some(test) => test.property.dict().len(),
    }
}

impl PartTest<'_> {
    /// Whether the test is of the text of a node variable.
    pub(crate) fn is_of(&self, variable: u32) -> bool
        ensures { IsTrue result → self.now.variable ≡ variable }
    {
        self.variable == variable
    }

    /// Whether the text of the variable's node in a row is there and has the part.
    pub(crate) fn passes(&self, codes: &CodeSet, row: &Assignment) -> bool
        requires { IsKnown self.now codes.now.known }
        ensures { result ≡ text_passes self.now row.now }
    {
        match row.nodes.get(self.variable as usize) {
            None => false,
            Some(node) => self.passes_row(codes, *node),
        }
    }

    /// Keeps the marked places at whose row of the variable the text is there and has the part.
    pub(crate) fn keep(&self, codes: &CodeSet, rows: Rows<'_>, marks: &mut Marks)
        requires known { IsKnown self.now codes.now.known }
        requires few { count_in rows ≤ VECTOR }
        requires within { (k : ℕ) → count_in rows ≤ k → is_marked marks.old k ≡ false }
        ensures { (k : ℕ) → is_marked marks.new k ≡ (is_marked marks.old k
            && row_passes self.now (row_in rows.entry k)) }
    {
        for place in 0..rows.len() {
            if !marks.get(place) {
                continue;
            }
            if !self.passes_row(codes, rows.row(place)) {
                marks.set(place, false);
            }
        }
    }

    // Whether the text of a row of the variable is there and has the part.
    fn passes_row(&self, codes: &CodeSet, row: u32) -> bool
        requires { IsKnown self.now codes.now.known }
        ensures { result ≡ row_passes self.now row }
    {
        match self.code(row) {
            None => false,
            Some(code) => self.passes_code(codes, code),
        }
    }

    // Whether the text of a code has the part.
    fn passes_code(&self, codes: &CodeSet, code: u32) -> bool
        requires known { IsKnown self.now codes.now.known }
        requires within { code < length self.now.property.now.dict }
        ensures { result ≡ is_in self.now.part (text_at self.now.property.now.dict code) }
    {
        let told = codes.known.told();
        if code < told {
            return codes.known.has(code);
        }
        is_in(&self.part, self.property.dict().text(code))
    }

    // The code of the text of a row of the variable.
    fn code(&self, row: u32) -> Option<u32>
        ensures value { result ≡ code_in (length self.now.property.now.dict)
            (cell_at self.now.property.now.column row) }
        ensures within { IfSome result (λ code. code < length self.now.property.now.dict) }
    {
        let cell = cell_at(self.property.column(), row)?;
        code_in(self.property.dict().len(), cell)
    }
}

// The code that a cell is, where it is one of the first so many.
fn code_in(count: u32, cell: i64) -> Option<u32>
    ensures value { result ≡ code_in count (Some cell) }
    ensures within { IfSome result (λ code. code < count) }
{
    if 0 <= cell && cell < i64::from(count) {
        Some(cell as u32)
    } else {
        None
    }
}

// Whether a text has a part.
fn is_in(part: &Part<'_>, text: &str) -> bool
    ensures { result ≡ is_in part.now text.now }
{
    match part {
        Part::End(end) => text.as_bytes().ends_with(end.as_str().as_bytes()),
        Part::Inner(inner) => has_part(text.as_bytes(), inner),
    }
}

fn has_part(text: &[u8], part: &Finder<'_>) -> bool
    ensures { result ≡ occurs text.now part.now }
{
    if text.len() > SHORT {
        return is_found(text, part);
    }
    match part.needle() {
        [] => is_found(text, part),
        [first, others @ ..] => is_within(text, *first, others),
    }
}

// The same, by the finder.
fn is_found(text: &[u8], part: &Finder<'_>) -> bool
    ensures { result ≡ occurs text.now part.now }
{
    part.find(text).is_some()
}

// Whether a byte and those behind it stand in a text, one behind another.
fn is_within(text: &[u8], first: u8, others: &[u8]) -> bool
    ensures { result ≡ occurs text.now (first ∷ others.now) }
{
    match text {
        [] => false,
        [byte, rest @ ..] => {
            (*byte == first && rest.starts_with(others)) || is_within(rest, first, others)
        }
    }
}

/// The test of a text that decides a condition, where it is one of a text property of a node.
pub(crate) fn text_test<'g>(
    graph: &'g Graph,
    typed: &Typed,
    condition: &'g NamedExpr,
) -> Option<PartTest<'g>>
    requires { IsSound graph.now.catalog typed.now }
    ensures { TextDecides graph.now typed.now condition.now result }
{
    let asked = condition.expr.get();
    match asked {
        Expr::Test(first, testers) => match first.get() {
            Expr::NodeProperty(variable, name) => {
                let part = part_of(testers.as_slice())?;
                let table = *typed.nodes.get(*variable as usize)?;
                let feed = node_feed(graph, *variable, table, name)?;
                match feed.property.kind() {
                    Kind::Str => Some(PartTest {
                        variable: *variable,
                        property: feed.property,
                        part,
                    }),
                    Kind::Int => None,
                    Kind::Flag => None,
                }
            }
            _ => None,
        },
        _ => None,
    }
}

// The part that a single test asks for.
fn part_of(testers: &[ExprTester]) -> Option<Part<'_>>
    ensures { IfSome result (λ part. testers.now ≡ tester_of part ∷ []) }
{
    match testers {
        [tester] => match tester {
            Tester::Text(TextTest::Ends, end) => Some(Part::End(text_of(end)?)),
            Tester::Text(TextTest::Contains, inner) => {
                let inner = text_of(inner)?.as_str().as_bytes();
                Some(Part::Inner(Finder::new(inner)))
            }
            _ => None,
        },
        _ => None,
    }
}
