//! Laws of caches, for whoever holds one. A call costs nothing and tells its caller the law.
use crate::cache::Cache;

fn is_sent<T: Send>() {}

/// A cache may go to another thread.
pub fn cache_is_sent() {
    is_sent::<Cache>();
}
