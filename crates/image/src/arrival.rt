// An arrival on the record where it lies: marks and numbers are read and written back, and the arrays are used in
// place.
ghost use Rattle.std.specs.Prelude.{◌≡◌};
ghost use Rattle.image.specs.Lent.{arrived_on, image_after, server_after, client_after, Tells};

use crate::{control_in, counts_at, put_back, refusal_at};
use arrivals::take;
use counts::counts_then;
use records::layout;
use rules::Answer;
use steps::Written;

// What a call on an image tells, in every case: its answer, how many octets it took, and how many it wrote into each
// buffer.
#[derive(Clone, Copy)]
pub struct Told {
    pub answer: Answer,
    pub taken: usize,
    pub written: Written,
}

// Octets of a direction arrive; what they give goes into the two buffers. A call that is refused leaves the image as
// it was.
pub fn arrive_at(
    image: &mut [u8],
    direction: u8,
    octets: &[u8],
    to_server: &mut [u8],
    to_client: &mut [u8],
) -> Told
    ensures told { let server = to_server.old in
        let client = to_client.old in
        let o = arrived_on image.old direction octets.now server client in
        Tells result o.called × (image.new ≡ image_after image.old o.called) }
    ensures buffers { let server = to_server.old in
        let client = to_client.old in
        let o = arrived_on image.old direction octets.now server client in
        (to_server.new ≡ server_after o server)
        × (to_client.new ≡ client_after o client) }
{
    if let Some(answer) = refusal_at(image, direction) {
        return nothing_written(answer);
    }
    let from_client = direction == 0;
    let supported = image[layout::SUPPORTED] == 1;
    let strict = image[layout::STRICT] == 1;
    let control = control_in(image);
    let up = counts_at(image, layout::UP_TAKEN);
    let down = counts_at(image, layout::DOWN_TAKEN);
    let t = take(
        supported,
        strict,
        from_client,
        control,
        octets,
        &mut image[layout::CLIENT..layout::SIZE],
        to_server,
        to_client,
    );
    let then = t.control;
    let written = t.written;
    let answer = t.answer;
    let counts = counts_then(up, down, from_client, t.taken, written);
    let sent = counts.up;
    let answered = counts.down;
    put_back(image, then, sent, answered);
    Told {
        answer,
        taken: t.taken,
        written,
    }
}

// What is told of a call that takes and writes nothing.
pub fn nothing_written(answer: Answer) -> Told
    ensures { result ≡ record { answer = answer; taken = 0; written = record { server = 0; client = 0 } } }
{
    Told {
        answer,
        taken: 0,
        written: Written {
            server: 0,
            client: 0,
        },
    }
}
