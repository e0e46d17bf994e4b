//! Room for growths to come.
ghost use Rattle.std.specs.Prelude.{◌≡◌, ◌<◌, ◌↔◌, IsErrOf};
ghost use Rattle.grow_core.specs.Vector.{IsHandOf, limit_of};

use crate::errors::ReserveError;
use crate::hand::Hand;
use crate::vector::Shared;

impl<T: Drop> Shared<T> {
    /// Installs the segments of the first `n` places, in all, unless they are there: growths up to that size then ask
    /// for no memory, by this hand or by any other. It claims nothing, and looks at no size. It asks for memory for
    /// each segment that is missing, and frees it again if another caller installs that segment meanwhile. If memory is
    /// refused, the segments that it has installed stay.
    pub fn reserve(&self, hand: &mut Hand<T>, n: u64) -> Result<(), ReserveError>
        requires ours { IsHandOf self.now hand.old }
        // The limit is looked at before memory is asked for.
        ensures too_long { IsErrOf result ReserveError.TooLong ↔ (limit_of self.now < n) }
        // It logs nothing, and the hand has seen what it had seen.
        ensures hand { hand.new ≡ hand.old }
    {
        // For the proof: the limit is that of a vector.
        self.laws();
        if self.limit() < n {
            return Err(ReserveError::TooLong);
        }
        if n == 0 {
            return Ok(());
        }
        match self.install_first(&mut hand.claims, n) {
            Ok(()) => Ok(()),
            Err(_) => Err(ReserveError::NoMemory),
        }
    }
}
