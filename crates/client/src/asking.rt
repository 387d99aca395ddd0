// Putting a question: it is judged, its slip read and entered at once.
ghost use Rattle.client.specs.Asking.{Asked};

use censors::censor::Censor;
use censors::question::Reply;
use histories::data::BoxFault;
use querybox::query_box::QueryBox;
use querybox::slip::ReadSlip;

// A reply, with the place of its question in the log.
#[derive(Clone, Copy)]
pub(crate) struct Replied {
    pub(crate) place: usize,
    pub(crate) reply: Reply,
}

// The slip is entered in the box that handed it out, with nothing in between: the proof says that it is not handed back.
pub(crate) fn ask<C: Censor>(
    query_box: &mut QueryBox<C>,
    counterparty: usize,
    text: &[u8],
) -> Result<Replied, BoxFault>
    ensures { Asked C.Censor.good C.Censor.decided C.Censor.after query_box.old counterparty text.now result query_box.new }
{
    let slip = query_box.judge(counterparty, text)?;
    let ReadSlip {
        slip,
        counterparty: _,
        place,
    } = slip.read();
    match query_box.enter(slip) {
        Ok(reply) => Ok(Replied { place, reply }),
        Err(_slip) => unreachable(),
    }
}
