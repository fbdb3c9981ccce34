//! What the values of the options say.

ghost use Rattle.std.specs.Prelude.{ℕ, IfNone, IfSome, option_map};
ghost use Rattle.gq_arguments.specs.Meaning.{IsNumber, IsOrder, IsRows, IsSource, Means};
ghost use Rattle.gq_arguments.specs.declared.meaning.Arguments.{Arguments};
ghost use Rattle.gq_arguments.specs.declared.meaning.Source.{Source};
ghost use Rattle.gq_order.specs.declared.named.Order.{Order};
ghost use Rattle.clap.specs.Words.{found_of, rows_of};

use clap::ArgMatches;
use gq_order::Order;

/// Where the graph comes from.
#[derive(Clone, Copy, Debug, PartialEq, Eq)]
pub enum Source<'a> {
    /// The files that the manifest at this path names.
    Manifest(&'a str),
    /// The sample graph of so many persons, 1 to 1,000,000.
    Sample(u32),
}

/// The arguments of the program.
#[derive(Clone, Copy, Debug, PartialEq, Eq)]
pub struct Arguments<'a> {
    pub source: Source<'a>,
    pub order: Order,
    /// The most rows that are kept, 1 to 16,777,216.
    pub rows: u32,
}

// The rows that are kept where `--rows` is not given.
const ROWS: u32 = 4_194_304;

// The number of a text, where it is from `low` to `high`.
fn number_in(text: &str, low: u32, high: u32) -> Option<u32>
    ensures some { IfSome result (IsNumber low high text.now) }
    ensures none { IfNone result ((n : ℕ) → ¬ (IsNumber low high text.now n)) }
{
    let Ok(number) = text.parse::<u32>() else {
        return None;
    };
    if number < low || high < number {
        return None;
    }
    Some(number)
}

fn source_of<'a>(manifest: Option<&'a str>, sample: Option<&'a str>) -> Option<Source<'a>>
    ensures some { IfSome result (IsSource (option_map (λ s. s.now) manifest.entry)
        (option_map (λ s. s.now) sample.entry)) }
    ensures none { IfNone result ((source : Source) → ¬ (IsSource
        (option_map (λ s. s.now) manifest.entry) (option_map (λ s. s.now) sample.entry) source)) }
{
    match (manifest, sample) {
        (Some(path), None) => Some(Source::Manifest(path)),
        (None, Some(text)) => match number_in(text, 1, 1_000_000) {
            Some(size) => Some(Source::Sample(size)),
            None => None,
        },
        _ => None,
    }
}

fn order_of(name: Option<&str>) -> Option<Order>
    ensures some { IfSome result (IsOrder (option_map (λ s. s.now) name.entry)) }
    ensures none { IfNone result ((order : Order)
        → ¬ (IsOrder (option_map (λ s. s.now) name.entry) order)) }
{
    match name {
        None => Some(Order::Greedy),
        Some(name) => Order::named(name),
    }
}

fn most_rows(text: Option<&str>) -> Option<u32>
    ensures some { IfSome result (IsRows (option_map (λ s. s.now) text.entry)) }
    ensures none { IfNone result ((rows : ℕ)
        → ¬ (IsRows (option_map (λ s. s.now) text.entry) rows)) }
{
    match text {
        None => Some(ROWS),
        Some(text) => number_in(text, 1, 16_777_216),
    }
}

/// What the options say, or `None` where they say nothing: not exactly one of manifest and sample
/// is given.
pub fn meaning_of<'a>(matches: &ArgMatches<'a>) -> Option<Arguments<'a>>
    ensures some { IfSome result (Means (rows_of (found_of matches.now))) }
    ensures none { IfNone result
        ((arguments : Arguments) → ¬ (Means (rows_of (found_of matches.now)) arguments)) }
{
    let Some(source) = source_of(matches.get_str("manifest"), matches.get_str("sample")) else {
        return None;
    };
    let Some(order) = order_of(matches.get_str("order")) else {
        return None;
    };
    let Some(rows) = most_rows(matches.get_str("rows")) else {
        return None;
    };
    Some(Arguments {
        source,
        order,
        rows,
    })
}
