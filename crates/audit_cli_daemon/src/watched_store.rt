use audit_cli_base::StoreWatch;
use audit_serve_door::Watch;
use std::fs::Files;

/// The look at the store's file, as a door takes it.
#[derive(Drop)]
pub struct WatchedStore<'a, R>(StoreWatch<'a, R>);

impl<'a, R: Files> WatchedStore<'a, R> {
    /// Looks as this watch does.
    pub fn new(watch: StoreWatch<'a, R>) -> WatchedStore<'a, R> {
        WatchedStore(watch)
    }
}

/// Nothing is known of the system's files.
impl<R: Files> Watch for WatchedStore<'_, R> {
    ghost use Rattle.audit_cli_daemon.specs.Gauged.{watch_of_file};

    ghost left = { watch_of_file };

    fn is_in_place(&mut self) -> bool {
        self.0.is_in_place()
    }
}
