// IPv4 addresses inside IPv6 addresses, behind a prefix (RFC 6052): put in, and taken out again. Bits 64 to 71 lie
// between the octets of some; without them prefix, IPv4 address and suffix stand one behind the other for every length,
// and that is how both functions go about it.
#![tactic(auto)]

ghost use Rattle.std.specs.Prelude.{◌≡◌, ◌≤◌, ℕ, Some, None, Ok, Err, length, take, drop};
ghost use Rattle.output.specs.Buffer.{put_at};
ghost use Rattle.rules.specs.Octets.{choose};
ghost use Rattle.prefix.specs.Prefix.{prefix_lengths, is_one_of, prefix_of, reserved, has_reserved_bits, ipv4_at};
ghost use Rattle.prefix.specs.Prefix.{without_reserved, with_reserved, embedded, extracted};
ghost use Rattle.prefix.specs.Prefix.{prefix_number, embedding, extracting};

use output::{array_from, put};
use rules::{IPV4, IPV6};
use std::marker::Model;

mod slices;

pub use slices::{embed_into, extract_into};

// The octet of an address that bits 64 to 71 are.
const RESERVED: usize = 8;

// An address without that octet.
type Parts = [u8; IPV6 - 1];

// What is answered. `prefix_number` gives the number of each case: 0, 9 and 10.
#[derive(Clone, Copy)]
pub enum PrefixAnswer {
    Done,
    BadLength,
    ReservedBits,
}

// An IPv4 address put behind a prefix; zeros where that is refused, as `embedding` promises, so this is no `Result`.
#[derive(Clone, Copy)]
pub struct Embedded {
    pub answer: PrefixAnswer,
    pub ipv6: [u8; IPV6],
}

// The IPv4 address taken out of an IPv6 address; zeros where that is refused, by `extracting`.
#[derive(Clone, Copy)]
pub struct Extracted {
    pub answer: PrefixAnswer,
    pub ipv4: [u8; IPV4],
}

// The IPv6 address of an IPv4 address. Only the first `length` bits of the prefix are looked at. The length is wide, so
// that no number is cut on its way here to one that is good.
pub fn embed(prefix: [u8; IPV6], length: u64, ipv4: [u8; IPV4]) -> Embedded
    ensures { result ≡ embedding prefix length ipv4 }
{
    match judged(length, has_reserved_prefix(prefix, length)) {
        Ok(length) => Embedded {
            answer: PrefixAnswer::Done,
            ipv6: behind_prefix(prefix, length, ipv4),
        },
        Err(answer) => Embedded {
            answer,
            ipv6: [0u8; IPV6],
        },
    }
}

// The IPv4 address of an IPv6 address. Neither its prefix nor its suffix is looked at.
pub fn extract(ipv6: [u8; IPV6], length: u64) -> Extracted
    ensures { result ≡ extracting ipv6 length }
{
    match judged(length, has_reserved_bits(ipv6)) {
        Ok(length) => Extracted {
            answer: PrefixAnswer::Done,
            ipv4: ipv4_in(ipv6, length),
        },
        Err(answer) => Extracted {
            answer,
            ipv4: [0u8; IPV4],
        },
    }
}

// The number of an answer, for hosts and programs, which tell numbers.
impl From<PrefixAnswer> for u8 {
    ghost from_gives = { λ answer number. number ≡ prefix_number answer };

    fn from(answer: PrefixAnswer) -> u8 {
        match answer {
            PrefixAnswer::Done => 0,
            PrefixAnswer::BadLength => 9,
            PrefixAnswer::ReservedBits => 10,
        }
    }
}

// The length of a prefix, one of the six as `new` makes it: at most 96, so that an IPv4 address has room behind it.
#[derive(Clone, Copy)]
struct PrefixLength {
    bits: u64,
}

impl Model for PrefixLength {
    ghost Value = { ℕ };

    ghost view = { λ l. l.bits };

    ghost invariant = { λ l. l.bits ≤ 96 };

    ghost inverse = { λ n. record { bits = n } };
}

impl PrefixLength {
    #[tactic(auto, unfolding(crate::specs::Prefix::is_one_of, rules::specs::Octets::choose))]
    fn new(bits: u64) -> Option<Self>
        ensures { result ≡ choose (is_one_of prefix_lengths bits) (Some bits) None }
    {
        match bits {
            32 | 40 | 48 | 56 | 64 | 96 => Some(PrefixLength { bits }),
            _ => None,
        }
    }

    // Where the IPv4 address begins in the parts of an address.
    #[tactic(auto, unfolding(crate::specs::Prefix::ipv4_at, rules::specs::Octets::choose))]
    fn ipv4_at(self) -> usize
        ensures result { result ≡ ipv4_at self }
        ensures most { result ≤ 11 }
    {
        let octets = (self.bits / 8) as usize;
        if octets <= RESERVED {
            return octets;
        }
        octets - 1
    }
}

// Number 9 for another length, and only then number 10.
#[tactic(auto, unfolding(rules::specs::Octets::choose))]
fn judged(length: u64, bits: bool) -> Result<PrefixLength, PrefixAnswer>
    ensures { let listed = is_one_of prefix_lengths length in
        result ≡ choose listed (choose bits (Err PrefixAnswer.ReservedBits) (Ok length)) (Err PrefixAnswer.BadLength) }
{
    let judged = PrefixLength::new(length).ok_or(PrefixAnswer::BadLength)?;
    if bits {
        return Err(PrefixAnswer::ReservedBits);
    }
    Ok(judged)
}

#[tactic(auto, unfolding(crate::specs::Prefix::has_reserved_bits))]
fn has_reserved_bits(ipv6: [u8; IPV6]) -> bool
    ensures { result ≡ has_reserved_bits ipv6 }
{
    ipv6[RESERVED] != 0
}

// The same of a prefix, to which bits past its length do not belong: one of fewer than 72 bits has none of these.
#[tactic(auto, using(crate::proofs::Placed::prefix_none, crate::proofs::Placed::prefix_same))]
fn has_reserved_prefix(prefix: [u8; IPV6], length: u64) -> bool
    ensures { result ≡ has_reserved_bits (prefix_of length prefix) }
{
    if length < 72 {
        return false;
    }
    has_reserved_bits(prefix)
}

fn without_reserved(ipv6: [u8; IPV6]) -> Parts
    ensures { result ≡ without_reserved ipv6 }
{
    let mut parts = [0u8; IPV6 - 1];
    put_ends(&mut parts, RESERVED, &ipv6, RESERVED + 1);
    parts
}

fn with_reserved(parts: Parts) -> [u8; IPV6]
    ensures { result ≡ with_reserved parts }
{
    let mut ipv6 = [0u8; IPV6];
    put_ends(&mut ipv6, RESERVED + 1, &parts, RESERVED);
    ipv6
}

// Puts the octets before the reserved one at the front, and those from `from` on at `at`.
fn put_ends(out: &mut [u8], at: usize, src: &[u8], from: usize)
    requires { (reserved ≤ length src.now) × (from ≤ length src.now) }
    ensures { let front = put_at out.old 0 (take reserved src.now) in
        out.new ≡ put_at front at (drop from src.now) }
{
    put(out, 0, &src[0..RESERVED]);
    put(out, at, &src[from..]);
}

// The first bits of the prefix, the IPv4 address, and a suffix of zeros.
fn behind_prefix(prefix: [u8; IPV6], length: PrefixLength, ipv4: [u8; IPV4]) -> [u8; IPV6]
    ensures { result ≡ embedded prefix length ipv4 }
{
    let given = without_reserved(prefix);
    let at = length.ipv4_at();
    let mut parts = [0u8; IPV6 - 1];
    put(&mut parts, 0, &given[..at]);
    put(&mut parts, at, &ipv4);
    with_reserved(parts)
}

// The four octets behind the prefix.
fn ipv4_in(ipv6: [u8; IPV6], length: PrefixLength) -> [u8; IPV4]
    ensures { result ≡ extracted ipv6 length }
{
    let parts = without_reserved(ipv6);
    let at = length.ipv4_at();
    array_from(&parts[at..at + IPV4])
}
