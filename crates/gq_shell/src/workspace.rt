//! What a session begins with.

ghost use Rattle.std.specs.Prelude.{◌≡◌, [], IfOk};
ghost use Rattle.gq_shell.specs.Serving.{IsReady};

use gq_base::Memory;
use gq_pool::VectorPool;
use gq_reply::Workspace;
use gq_syntax::Params;
use std::alloc::Global;

/// The most slots that a pipeline takes: 24 for columns of relationships, 64 for properties that
/// tests read, and 24 for nodes that joins bring.
const SLOTS: u32 = 112;

/// A pool with as many free slots as a pipeline takes at most, and no parameters.
pub(crate) fn new_workspace(alloc: Global) -> Result<Workspace, Memory>
    ensures ready { IfOk result (λ w. IsReady w) }
    ensures empty { IfOk result (λ w. w.params ≡ []) }
{
    let pool = VectorPool::new(alloc, SLOTS)?;
    let params = Params::new(alloc);
    Ok(Workspace { pool, params })
}
