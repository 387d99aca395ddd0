// The promise of a box, for every censor.
ghost use Rattle.histories.specs.Promise.{Promise};

use censors::censor::Censor;

// Whatever the censor, and whatever the box that is opened with it: in no history is a secret given away or a reply out of date.
pub fn promise_kept<C: Censor>(censor: &C)
    ensures { Promise (C.Censor.good censor.now) (C.Censor.decided censor.now) (C.Censor.after censor.now) }
{}
