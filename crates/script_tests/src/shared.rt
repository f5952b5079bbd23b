//! What of a tree may cross threads.
use do_tree::{Block, Expr, Script, Stmt};
use std::sync::Arc;

fn is_shared<T: Send + Sync>() {}

/// Tasks hold nodes, and any thread may resume a task.
pub(crate) fn nodes_are_shared_among_threads() {
    is_shared::<Script>();
    is_shared::<Arc<Expr>>();
    is_shared::<Arc<Stmt>>();
    is_shared::<Arc<Block>>();
}
