// A new store.
ghost use Rattle.std.specs.Prelude.{◌≡◌, IfOk};
ghost use Rattle.model.specs.State.{fresh};
ghost use Rattle.store.specs.Views.{view};

use super::store::Store;
use rows::{LastNumbers, Marks};
use std::alloc::{AllocError, Global};
use terms::LOG_LENGTH;
use workers::Workers;

impl Store {
    // An empty store. All its memory is taken here, and none is asked for later.
    pub fn new(heap: Global) -> Result<Store, AllocError>
        ensures { IfOk result (λ s. view s ≡ fresh) }
    {
        let rows = Vec::with_capacity(heap, LOG_LENGTH)?;
        let workers = Workers::new(heap)?;
        Ok(Store {
            rows,
            workers,
            marks: Marks::new(),
            lasts: LastNumbers::new(),
            assigned: 0,
            finished: 0,
        })
    }
}
