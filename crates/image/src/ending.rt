// The end of a direction on the record where it lies: the held octets go out from their line, and the four fields that
// change are written.
ghost use Rattle.std.specs.Prelude.{◌≡◌, ◌^◌, ◌<◌, true, length};
ghost use Rattle.output.specs.Buffer.{put_at};
ghost use Rattle.records.specs.Sound.{side_if, Counted};
ghost use Rattle.session.specs.Calls.{held_end, buffer_after};
ghost use Rattle.image.specs.Image.{image_of, control_in, fields_in, is_image};
ghost use Rattle.image.specs.Lent.{ended_on, ended_with, place_at, telnet_at, held_at, line_at, written_at};
ghost use Rattle.image.specs.Lent.{image_after, server_after, client_after, Tells};

use crate::arrival::nothing_written;
use crate::{
    Told, control_in, is_image, number_at, place_number, put_number, refusal_in, telnet_number,
};
use counts::written_from;
use gives::{passed_length, put_passed};
use places::Place;
use records::{direction_of, layout, unfinished_of};
use rules::{Answer, Telnet};
use telnet::{put_unfinished, unfinished_length};

// A direction ends: its held octets go into its buffer, and a Telnet command that is unfinished behind them. A call
// that is refused, or has no room for them, leaves the image as it was. It asks what refuses it as an arrival does,
// each by itself, so that the compiler joins an arrival's tests with what it reads.
pub fn end_at(image: &mut [u8], direction: u8, to_server: &mut [u8], to_client: &mut [u8]) -> Told
    ensures told { let o = ended_on image.old direction to_server.old to_client.old in
        Tells result o.called × (image.new ≡ image_after image.old o.called) }
    ensures buffers { let o = ended_on image.old direction to_server.old to_client.old in
        (to_server.new ≡ server_after o to_server.old)
        × (to_client.new ≡ client_after o to_client.old) }
{
    if 2 <= direction {
        return nothing_written(Answer::UnknownDirection);
    }
    if !is_image(image) {
        return nothing_written(Answer::BadRecord);
    }
    if let Some(answer) = refusal_in(image, direction) {
        return nothing_written(answer);
    }
    if direction == 0 {
        return end_held(image, true, to_server);
    }
    end_held(image, false, to_client)
}

// The same where nothing refuses it. Only one buffer is written, that of the direction.
fn end_held(image: &mut [u8], from_client: bool, out: &mut [u8]) -> Told
    requires { (is_image image.old ≡ true) × Counted (control_in image.old) }
    ensures { let d = side_if from_client in
        let o = held_end (fields_in image.old) d (length out.old) in
        (Tells result o.called × (image.new ≡ image_after image.old o.called))
        × (out.new ≡ buffer_after d o out.old) }
{
    let control = control_in(image);
    let direction = direction_of(control, from_client);
    let tail = unfinished_of(control, from_client);
    let at = fields_at(from_client).line;
    let held = &image[at..at + direction.held];
    if out.len() < passed_length(held) + unfinished_length(tail) {
        return nothing_written(Answer::NoRoom);
    }
    let next = put_passed(out, 0, held);
    let n = put_unfinished(out, next, tail);
    put_end(image, from_client, n);
    Told {
        answer: Answer::Done,
        taken: 0,
        written: written_from(from_client, n),
    }
}

// A direction has ended and holds nothing, no Telnet command of it is unfinished, and n octets more were written for
// it. No other octet changes.
fn put_end(image: &mut [u8], from_client: bool, n: usize)
    requires { (is_image image.old ≡ true) × (n < 2 ^ 32) }
    ensures { let before = image.old in
        image.new ≡ put_at before 0 (image_of (ended_with (fields_in before) (side_if from_client) n)) }
{
    let at = fields_at(from_client);
    let before = number_at(image, at.written);
    image[at.place] = place_number(Place::Ended);
    image[at.telnet] = telnet_number(Telnet::Clear);
    put_number(image, at.held, 0);
    let sum = before.wrapping_add(n as u32);
    put_number(image, at.written, sum);
}

// Where the fields of a direction lie that its end changes, and its line.
#[derive(Clone, Copy)]
struct EndFields {
    place: usize,
    telnet: usize,
    held: usize,
    written: usize,
    line: usize,
}

fn fields_at(from_client: bool) -> EndFields
    ensures place { result.place ≡ place_at (side_if from_client) }
    ensures telnet { result.telnet ≡ telnet_at (side_if from_client) }
    ensures held { result.held ≡ held_at (side_if from_client) }
    ensures written { result.written ≡ written_at (side_if from_client) }
    ensures line { result.line ≡ line_at (side_if from_client) }
{
    if from_client {
        return EndFields {
            place: layout::CLIENT_PLACE,
            telnet: layout::CLIENT_TELNET,
            held: layout::CLIENT_HELD,
            written: layout::UP_WRITTEN,
            line: layout::COMMAND,
        };
    }
    EndFields {
        place: layout::SERVER_PLACE,
        telnet: layout::SERVER_TELNET,
        held: layout::SERVER_HELD,
        written: layout::DOWN_WRITTEN,
        line: layout::REPLY,
    }
}
