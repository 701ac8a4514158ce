// Addresses by prefix (RFC 6052) for a host in C.
ghost use Rattle.std.specs.Prelude.{◌≡◌};
ghost use Rattle.prefix.specs.Prefix.{prefix_number};
ghost use Rattle.prefix.specs.Slices.{embed_answer, embed_after, extract_answer, extract_after};

use prefix::{embed_into, extract_into};

// Puts an IPv4 address behind a prefix, into the IPv6 address.
pub fn fashlemor_embed(prefix: &[u8], length: u64, ipv4: &[u8], ipv6: &mut [u8]) -> u8
    ensures number { let answer = embed_answer prefix.now length ipv4.now ipv6.old in
        result ≡ prefix_number answer }
    ensures address { ipv6.new ≡ embed_after prefix.now length ipv4.now ipv6.old }
{
    let answer = embed_into(prefix, length, ipv4, ipv6);
    u8::from(answer)
}

// Takes the IPv4 address out of an IPv6 address, into the IPv4 address.
pub fn fashlemor_extract(ipv6: &[u8], length: u64, ipv4: &mut [u8]) -> u8
    ensures number { result ≡ prefix_number (extract_answer ipv6.now length ipv4.old) }
    ensures address { ipv4.new ≡ extract_after ipv6.now length ipv4.old }
{
    let answer = extract_into(ipv6, length, ipv4);
    u8::from(answer)
}
