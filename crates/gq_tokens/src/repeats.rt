//! Repetitions: the loop of the productions that repeat something, written once over what reads an item.

ghost use Rattle.std.specs.Prelude.{◌≡◌, ◌∷◌, IfOk};
ghost use Rattle.gq_tokens.specs.Answers.{Reads, ReadsBeside};
ghost use Rattle.gq_tokens.specs.Readers as r;
ghost use Rattle.gq_tokens.specs.Repeats.{Items, Parts};

use crate::leads::Lead;
use crate::tokens::{Stop, Tokens};
use gq_base::{List, Memory};
use gq_lexer::Sign;
use std::alloc::Global;

/// An item and those behind it.
pub fn led<B: Drop>(first: B, more: List<B>) -> Result<List<B>, Memory>
    ensures { IfOk result (λ all. all ≡ first ∷ more) }
{
    let mut all = more.into_vec();
    all.insert(0, first)?;
    Ok(List::from_vec(all))
}

/// Any number of items, each behind a token that leads it in.
pub fn many<L: Lead, B: Drop, R: Fn(&mut Tokens<'_>, L::Found) -> Result<B, Stop>>(
    alloc: Global,
    tokens: &mut Tokens<'_>,
    lead: L,
    item: R,
) -> Result<List<B>, Stop>
    requires { R.IsAlwaysCallable item }
    ensures { (read : L.Found → r.Reader B) → Items read (R.post item)
        → Reads (r.many (L.test lead) read tokens.old) result tokens.new }
{
    let mut found = List::new(alloc);
    // Each item takes a token, so there are no more of them than tokens.
    for _turn in 0..tokens.left().len() {
        let Some(opening) = lead.take(tokens) else {
            return Ok(found);
        };
        let next = item(tokens, opening)?;
        found.push(next)?;
    }
    Ok(found)
}

/// A value that was read, and any number of items beside it, each behind a token that leads it in.
pub fn with_many<A: Drop, L: Lead, B: Drop, R: Fn(&mut Tokens<'_>, L::Found) -> Result<B, Stop>>(
    alloc: Global,
    tokens: &mut Tokens<'_>,
    first: A,
    lead: L,
    item: R,
) -> Result<(A, List<B>), Stop>
    requires { R.IsAlwaysCallable item }
    ensures { (read : L.Found → r.Reader B) → Items read (R.post item)
        → ReadsBeside first (r.many (L.test lead) read tokens.old) result tokens.new }
{
    let more = many(alloc, tokens, lead, item)?;
    Ok((first, more))
}

/// An item that was read, and any number more, each behind a token that leads it in.
pub fn behind<L: Lead, B: Drop, R: Fn(&mut Tokens<'_>, L::Found) -> Result<B, Stop>>(
    alloc: Global,
    tokens: &mut Tokens<'_>,
    first: B,
    lead: L,
    item: R,
) -> Result<List<B>, Stop>
    requires { R.IsAlwaysCallable item }
    ensures { (read : L.Found → r.Reader B) → Items read (R.post item)
        → Reads (r.into (λ xs. first ∷ xs) (r.many (L.test lead) read) tokens.old) result
        tokens.new }
{
    let more = many(alloc, tokens, lead, item)?;
    Ok(led(first, more)?)
}

/// One or more items, with commas between them.
pub fn listed<B: Drop, R: Fn(&mut Tokens<'_>) -> Result<B, Stop>>(
    alloc: Global,
    tokens: &mut Tokens<'_>,
    item: R,
) -> Result<List<B>, Stop>
    requires { R.IsAlwaysCallable item }
    ensures { (read : r.Reader B) → Parts read (R.post item)
        → Reads (r.listed read tokens.old) result tokens.new }
{
    let first = item(tokens)?;
    behind(alloc, tokens, first, Sign::Comma, |tokens, _| item(tokens))
}
