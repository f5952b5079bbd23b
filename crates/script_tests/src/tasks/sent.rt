//! What of a task may cross threads.
use script_eval::Task;

fn is_sent<T: Send>() {}

/// A suspended task is plain data, and any thread may resume it.
pub(crate) fn a_task_may_go_to_another_thread() {
    is_sent::<Task>();
}
