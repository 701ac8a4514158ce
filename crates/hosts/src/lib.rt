// Demand 3 for a host in C, whose memory is the record. The functions that C calls stand here once more, with the
// promises that the claim is proved from as their contracts: that they keep them is proved, not read.
#![tactic(auto)]

ghost use Rattle.std.specs.Prelude.{◌≡◌, ◌<◌, length, get_or};
ghost use Rattle.rules.specs.Answers.{answer_number, side_of};
ghost use Rattle.rules.specs.Setup.{setup_in};
ghost use Rattle.rules.specs.Demand3.{arrival, ending};
ghost use Rattle.session.specs.Bounds.{Progress};
ghost use Rattle.setups.specs.Setups.{prepared_from};
ghost use Rattle.counts.specs.Counts.{offset as offset_in};
ghost use Rattle.output.specs.Buffer.{put_at};
ghost use Rattle.image.specs.Image.{image_of, session_of};
ghost use Rattle.fashlemor.specs.Host.{setup_number, offset_number, offset_after};
ghost use Rattle.hosts.specs.Memory.{host, told_by, Does};

use fashlemor::{fashlemor_arrive, fashlemor_end, fashlemor_offset, fashlemor_setup};
use rules::Answer;

// A setup that is told 0 leaves a fresh record in the host's memory.
pub fn promised_setup(image: &mut [u8], setup: &[u8]) -> u8
    ensures number { result ≡ setup_number image.old (prepared_from setup.now) }
    ensures memory { let p = prepared_from setup.now in
        image.new ≡ put_at image.old 0 (image_of p.session) }
    ensures fresh { result ≡ answer_number Answer.Done → host.Fresh (setup_in setup.now) image.new }
{
    fashlemor_setup(image, setup)
}

// An arrival does all that the call does, whatever is lent, and so keeps the promise. It goes on where there is room.
pub fn promised_arrival(
    image: &mut [u8],
    direction: u64,
    octets: &[u8],
    to_server: &mut [u8],
    to_client: &mut [u8],
    counts: &mut [usize; 3],
) -> u8
    ensures does { let c = arrival direction octets.now to_server.old to_client.old in
        let out = to_server.new in
        let back = to_client.new in
        Does image.old c result image.new out back counts.new }
    ensures promise { let c = arrival direction octets.now to_server.old to_client.old in
        let out = to_server.new in
        let back = to_client.new in
        ((a : Answer) → answer_number a ≡ result
        → host.Promise image.old c (told_by image.old c a counts.new
        image.new out back)) }
    ensures progress { let server_room = length to_server.old in
        let client_room = length to_client.old in
        ((a : Answer) → answer_number a ≡ result
        → Progress octets.now server_room client_room a (get_or counts.new 0 0)) }
{
    fashlemor_arrive(image, direction, octets, to_server, to_client, counts)
}

// So does an end.
pub fn promised_end(
    image: &mut [u8],
    direction: u64,
    to_server: &mut [u8],
    to_client: &mut [u8],
    counts: &mut [usize; 3],
) -> u8
    ensures does { let c = ending direction to_server.old to_client.old in
        let out = to_server.new in
        let back = to_client.new in
        Does image.old c result image.new out back counts.new }
    ensures promise { let c = ending direction to_server.old to_client.old in
        let out = to_server.new in
        let back = to_client.new in
        ((a : Answer) → answer_number a ≡ result
        → host.Promise image.old c (told_by image.old c a counts.new
        image.new out back)) }
{
    fashlemor_end(image, direction, to_server, to_client, counts)
}

// The offset that is set for a direction that there is, is the host's.
pub fn promised_offset(image: &[u8], direction: u64, out: &mut u32) -> u8
    ensures number { result ≡ offset_number (offset_in (session_of image.now) direction) }
    ensures set { out.new ≡ offset_after (offset_in (session_of image.now) direction) out.old }
    ensures kept { direction < 2 → out.new ≡ host.offset image.now (side_of direction) }
{
    fashlemor_offset(image, direction, out)
}
