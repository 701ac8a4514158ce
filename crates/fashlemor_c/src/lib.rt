// The functions that a host in C calls, by the names that relay/fashlemor.h declares. Each is the function of that name
// in the crate fashlemor, whose clauses it has word for word: a static library exports names, and no crate stands on
// one, so both are there.
#![tactic(auto)]

ghost use Rattle.std.specs.Prelude.{◌≡◌};
ghost use Rattle.rules.specs.Answers.{answer_number};
ghost use Rattle.output.specs.Buffer.{put_at};
ghost use Rattle.setups.specs.Setups.{prepared_from};
ghost use Rattle.counts.specs.Counts.{offset as offset_in};
ghost use Rattle.image.specs.Image.{image_of, session_of};
ghost use Rattle.image.specs.Lent.{arrived_on, ended_on, image_after, server_after, client_after};
ghost use Rattle.prefix.specs.Prefix.{prefix_number};
ghost use Rattle.prefix.specs.Slices.{embed_answer, embed_after, extract_answer, extract_after};
ghost use Rattle.fashlemor.specs.Host.{setup_number, counts_of, offset_number, offset_after};

// Writes the record of a fresh session, or the record of a setup that is refused.
#[unsafe(no_mangle)]
pub extern "C" fn fashlemor_setup(image: &mut [u8], setup: &[u8]) -> u8
    ensures number { result ≡ setup_number image.old (prepared_from setup.now) }
    ensures record { let p = prepared_from setup.now in
        image.new ≡ put_at image.old 0 (image_of p.session) }
{
    fashlemor::fashlemor_setup(image, setup)
}

// Octets of a direction arrive; what they give goes into the two buffers.
#[unsafe(no_mangle)]
pub extern "C" fn fashlemor_arrive(
    image: &mut [u8],
    direction: u64,
    octets: &[u8],
    to_server: &mut [u8],
    to_client: &mut [u8],
    counts: &mut [usize; 3],
) -> u8
    ensures told { let out = to_server.old in
        let back = to_client.old in
        let o = arrived_on image.old direction octets.now out back in
        (result ≡ answer_number o.called.answer) × (counts.new ≡ counts_of o.called) }
    ensures record { let out = to_server.old in
        let back = to_client.old in
        let o = arrived_on image.old direction octets.now out back in
        image.new ≡ image_after image.old o.called }
    ensures buffers { let out = to_server.old in
        let back = to_client.old in
        let o = arrived_on image.old direction octets.now out back in
        (to_server.new ≡ server_after o out) × (to_client.new ≡ client_after o back) }
{
    fashlemor::fashlemor_arrive(image, direction, octets, to_server, to_client, counts)
}

// A direction ends: its held octets go into its buffer.
#[unsafe(no_mangle)]
pub extern "C" fn fashlemor_end(
    image: &mut [u8],
    direction: u64,
    to_server: &mut [u8],
    to_client: &mut [u8],
    counts: &mut [usize; 3],
) -> u8
    ensures told { let out = to_server.old in
        let back = to_client.old in
        let o = ended_on image.old direction out back in
        (result ≡ answer_number o.called.answer) × (counts.new ≡ counts_of o.called) }
    ensures record { let out = to_server.old in
        let back = to_client.old in
        let o = ended_on image.old direction out back in
        image.new ≡ image_after image.old o.called }
    ensures buffers { let out = to_server.old in
        let back = to_client.old in
        let o = ended_on image.old direction out back in
        (to_server.new ≡ server_after o out) × (to_client.new ≡ client_after o back) }
{
    fashlemor::fashlemor_end(image, direction, to_server, to_client, counts)
}

// The offset of a direction; nothing is set for one that there is not.
#[unsafe(no_mangle)]
pub extern "C" fn fashlemor_offset(image: &[u8], direction: u64, out: &mut u32) -> u8
    ensures number { result ≡ offset_number (offset_in (session_of image.now) direction) }
    ensures offset { out.new ≡ offset_after (offset_in (session_of image.now) direction) out.old }
{
    fashlemor::fashlemor_offset(image, direction, out)
}

// Puts an IPv4 address behind a prefix, into the IPv6 address.
#[unsafe(no_mangle)]
pub extern "C" fn fashlemor_embed(prefix: &[u8], length: u64, ipv4: &[u8], ipv6: &mut [u8]) -> u8
    ensures number { let answer = embed_answer prefix.now length ipv4.now ipv6.old in
        result ≡ prefix_number answer }
    ensures address { ipv6.new ≡ embed_after prefix.now length ipv4.now ipv6.old }
{
    fashlemor::fashlemor_embed(prefix, length, ipv4, ipv6)
}

// Takes the IPv4 address out of an IPv6 address, into the IPv4 address.
#[unsafe(no_mangle)]
pub extern "C" fn fashlemor_extract(ipv6: &[u8], length: u64, ipv4: &mut [u8]) -> u8
    ensures number { result ≡ prefix_number (extract_answer ipv6.now length ipv4.old) }
    ensures address { ipv4.new ≡ extract_after ipv6.now length ipv4.old }
{
    fashlemor::fashlemor_extract(ipv6, length, ipv4)
}
