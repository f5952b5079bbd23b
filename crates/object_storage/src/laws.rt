//! Laws of storages, for whoever holds one. A call costs nothing and tells its caller the law.
use crate::storage::Storage;
use do_disk::Disk;

fn is_sent<T: Send>() {}

/// The storage of an object over a disk that may go to another thread may go there too.
pub fn storage_is_sent<D: Disk + Send>() {
    is_sent::<Storage<D>>();
}
