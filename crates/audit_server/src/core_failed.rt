use audit_disk_model::Sectors;
use audit_store::Store;

/// A core couldn't be made because memory was refused.
#[derive(Drop)]
pub struct CoreFailed<D: Sectors> {
    /// The store, unchanged.
    pub store: Store<D>,
}
