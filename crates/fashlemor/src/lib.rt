// The gateway for a host in C: setup, arrival, end and offset over numbers and slices, with the record as an image in
// the host's memory.
#![tactic(auto)]

ghost use Rattle.std.specs.Prelude.{◌≡◌};
ghost use Rattle.rules.specs.Answers.{answer_number};
ghost use Rattle.output.specs.Buffer.{put_at};
ghost use Rattle.setups.specs.Setups.{prepared_from};
ghost use Rattle.counts.specs.Counts.{offset as offset_in};
ghost use Rattle.image.specs.Image.{image_of, session_of};
ghost use Rattle.image.specs.Lent.{arrived_on, ended_on, image_after, server_after, client_after};
ghost use Rattle.fashlemor.specs.Host.{setup_number, counts_from, counts_of, narrow, offset_number, offset_after};

use counts::offset;
use image::{arrive_at, end_at, put_image, read_image};
use records::layout;
use rules::Answer;
use setups::setup_from;
use steps::Written;

mod addresses;

pub use addresses::{fashlemor_embed, fashlemor_extract};

// Writes the record of a fresh session, or the record of a setup that is refused.
pub fn fashlemor_setup(image: &mut [u8], setup: &[u8]) -> u8
    ensures number { result ≡ setup_number image.old (prepared_from setup.now) }
    ensures record { let p = prepared_from setup.now in
        image.new ≡ put_at image.old 0 (image_of p.session) }
{
    let room = image.len();
    let p = setup_from(setup);
    let answer = p.answer;
    let session = p.session;
    put_image(image, session);
    if room < layout::SIZE {
        return u8::from(Answer::BadSetup);
    }
    u8::from(answer)
}

// Octets of a direction arrive; what they give goes into the two buffers.
pub fn fashlemor_arrive(
    image: &mut [u8],
    direction: u64,
    octets: &[u8],
    to_server: &mut [u8],
    to_client: &mut [u8],
    counts: &mut [usize; 3],
) -> u8
    ensures told { let out = to_server.old in
        let back = to_client.old in
        let o = arrived_on image.old direction octets.now out back in
        (result ≡ answer_number o.called.answer) × (counts.new ≡ counts_of o.called) }
    ensures record { let out = to_server.old in
        let back = to_client.old in
        let o = arrived_on image.old direction octets.now out back in
        image.new ≡ image_after image.old o.called }
    ensures buffers { let out = to_server.old in
        let back = to_client.old in
        let o = arrived_on image.old direction octets.now out back in
        (to_server.new ≡ server_after o out) × (to_client.new ≡ client_after o back) }
{
    let told = arrive_at(image, narrowed(direction), octets, to_server, to_client);
    let answer = told.answer;
    let written = told.written;
    put_counts(counts, told.taken, written);
    u8::from(answer)
}

// A direction ends: its held octets go into its buffer.
pub fn fashlemor_end(
    image: &mut [u8],
    direction: u64,
    to_server: &mut [u8],
    to_client: &mut [u8],
    counts: &mut [usize; 3],
) -> u8
    ensures told { let out = to_server.old in
        let back = to_client.old in
        let o = ended_on image.old direction out back in
        (result ≡ answer_number o.called.answer) × (counts.new ≡ counts_of o.called) }
    ensures record { let out = to_server.old in
        let back = to_client.old in
        let o = ended_on image.old direction out back in
        image.new ≡ image_after image.old o.called }
    ensures buffers { let out = to_server.old in
        let back = to_client.old in
        let o = ended_on image.old direction out back in
        (to_server.new ≡ server_after o out) × (to_client.new ≡ client_after o back) }
{
    let done = end_at(image, narrowed(direction), to_server, to_client);
    let answer = done.answer;
    let written = done.written;
    put_counts(counts, done.taken, written);
    u8::from(answer)
}

// The offset of a direction; nothing is set for one that there is not.
pub fn fashlemor_offset(image: &[u8], direction: u64, out: &mut u32) -> u8
    ensures number { result ≡ offset_number (offset_in (session_of image.now) direction) }
    ensures offset { out.new ≡ offset_after (offset_in (session_of image.now) direction) out.old }
{
    let session = read_image(image);
    let Some(n) = offset(session, narrowed(direction)) else {
        return u8::from(Answer::UnknownDirection);
    };
    *out = n;
    u8::from(Answer::Done)
}

// A direction's number in an octet: a wide one is none that there is, and stays so.
fn narrowed(direction: u64) -> u8
    ensures { result ≡ narrow direction }
{
    if 2 <= direction {
        return 2;
    }
    direction as u8
}

// Octets taken, written to the server and written to the client.
fn put_counts(counts: &mut [usize; 3], taken: usize, written: Written)
    ensures { counts.new ≡ counts_from taken written }
{
    *counts = [taken, written.server, written.client];
}
