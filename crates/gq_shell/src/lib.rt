//! One run of the program: which status it may end with for its words, files and input, and what it
//! writes then. The crate stands on `gq_arguments`, the graphs of `gq_loader` and `gq_sample`, the
//! sessions of `gq_session` and the replies of `gq_reply`.
#![tactic(auto)]

mod load_line;
mod program;
mod serving;
mod showing;
mod status;
mod workspace;

pub use gq_execute::{Answer, AnswerRefusal, Settings, answer};
pub use gq_order::Order;
pub use gq_reply::{Workspace, write_spent};
pub use gq_sample::sample;
pub use program::run;
pub use serving::session;
pub use status::Status;
