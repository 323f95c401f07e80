// What every kind of order shows of itself.
ghost use Rattle.std.specs.Prelude.{◌≡◌, slice_index};
ghost use Rattle.model.specs.State.{Order};

use terms::WorkerId;

pub trait OrderKind: Copy {
    // The order as the model has it.
    ghost shown: { Self → Order };

    // The order's number.
    fn number(&self) -> u16
        ensures { result ≡ (shown self.now).number };

    // What the order needs from worker v.
    fn need(&self, v: WorkerId) -> u16
        ensures { result ≡ slice_index (shown self.now).needs v };
}
