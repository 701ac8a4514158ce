// The same for hosts that lend addresses as slices. One of another length than its address is refused with number 9,
// before all else, and nothing is written.
ghost use Rattle.std.specs.Prelude.{◌≡◌};
ghost use Rattle.prefix.specs.Slices.{are_widths, embed_answer, embed_after, extract_answer, extract_after};

use crate::{PrefixAnswer, embed, extract};
use output::{array_from, put};
use rules::{IPV4, IPV6};

// Puts the IPv4 address behind the prefix, into `ipv6`.
pub fn embed_into(prefix: &[u8], length: u64, ipv4: &[u8], ipv6: &mut [u8]) -> PrefixAnswer
    ensures answer { result ≡ embed_answer prefix.now length ipv4.now ipv6.old }
    ensures address { ipv6.new ≡ embed_after prefix.now length ipv4.now ipv6.old }
{
    if !are_widths(prefix.len(), ipv4.len()) {
        return PrefixAnswer::BadLength;
    }
    if !are_widths(ipv6.len(), ipv4.len()) {
        return PrefixAnswer::BadLength;
    }
    let made = embed(array_from(prefix), length, array_from(ipv4));
    put(ipv6, 0, &made.ipv6);
    made.answer
}

// Takes the IPv4 address out of an IPv6 address, into `ipv4`.
pub fn extract_into(ipv6: &[u8], length: u64, ipv4: &mut [u8]) -> PrefixAnswer
    ensures answer { result ≡ extract_answer ipv6.now length ipv4.old }
    ensures address { ipv4.new ≡ extract_after ipv6.now length ipv4.old }
{
    if !are_widths(ipv6.len(), ipv4.len()) {
        return PrefixAnswer::BadLength;
    }
    let taken = extract(array_from(ipv6), length);
    put(ipv4, 0, &taken.ipv4);
    taken.answer
}

// Whether slices of these lengths are for an IPv6 and an IPv4 address.
#[tactic(auto, unfolding(crate::specs::Slices::are_widths))]
fn are_widths(ipv6: usize, ipv4: usize) -> bool
    ensures { result ≡ are_widths ipv6 ipv4 }
{
    ipv6 == IPV6 && ipv4 == IPV4
}
