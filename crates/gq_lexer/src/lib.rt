//! The tokens of a query's text, each with its place, or the place where the text fails, exactly as
//! their definition says. The crate stands on `gq_base` alone.
#![tactic(auto)]

mod blank;
mod lexeme;
mod number;
mod run;
mod scan;
mod sign;
mod token;

pub use blank::is_blank;
pub use gq_ast::Span;
pub use scan::lex;
pub use token::{LexRefusal, Sign, Token, TokenKind};
