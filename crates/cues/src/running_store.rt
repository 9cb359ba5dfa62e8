// The store while it runs: one stops it to plot.
ghost use Rattle.std.specs.Prelude.{◌≡◌};
ghost use Rattle.cues.specs.Stores.{SameStore};

pub use crate::store::Running;
use crate::store::{Plotting, Store};
use codes::code::Code;
use std::marker::PhantomData;

impl<C: Code + Drop> Running<C> {
    /// The same store, plotting.
    pub fn stop(self) -> Plotting<C>
        ensures kept { result.kept ≡ self.kept }
        ensures same { SameStore self result }
    {
        Store {
            code: self.code,
            shape: self.shape,
            kept: self.kept,
            state: PhantomData,
        }
    }
}
