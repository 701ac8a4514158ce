// The argument of EPRT.
#![tactic(auto)]

ghost use Rattle.std.specs.Prelude.{◌≡◌, [], ◌∷◌};
ghost use Rattle.std.specs.Prelude.{Some, MatchOption};
ghost use Rattle.rules.specs.Octets.{equal, parts};
ghost use Rattle.rules.specs.Commands.{fields_argument, eprt_argument};

use address::ipv6;
use octets::read_number;
use rules::IPV6;

// Whether two addresses are the same.
pub fn same_address(a: [u8; IPV6], b: [u8; IPV6]) -> bool
    ensures { result ≡ equal a b }
{
    a == b
}

// The port of three fields that are 2, the client's own address and a port.
fn fields_argument(protocol: &[u8], address: &[u8], port: &[u8], client: [u8; IPV6]) -> Option<u16>
    ensures { result ≡ fields_argument client (Some (protocol.now, address.now, port.now)) }
{
    if protocol != b"2".as_slice() {
        return None;
    }
    let octets = ipv6(address)?;
    if !same_address(octets, client) {
        return None;
    }
    let value = read_number(port, 5, 1, 65535)?;
    Some(value as u16)
}

// What stands before the first delimiter, and what follows it.
fn split_once(text: &[u8], delimiter: u8) -> Option<(&[u8], &[u8])>
    ensures { let cut = parts delimiter in
        MatchOption result (cut text.now ≡ text.now ∷ []) (λ p. cut text.now ≡ p.0.now ∷ cut p.1.now) }
{
    let at = text.iter().position(|x| *x == delimiter)?;
    Some((&text[..at], &text[at + 1..]))
}

// The port of an argument that names the client's own address: three fields between four delimiters, and nothing
// after the last.
pub fn eprt_argument(argument: &[u8], client: [u8; IPV6]) -> Option<u16>
    ensures { result ≡ eprt_argument client argument.now }
{
    let (delimiter, fields) = argument.split_first()?;
    if *delimiter < 33 || *delimiter > 126 {
        return None;
    }
    let (protocol, rest) = split_once(fields, *delimiter)?;
    let (address, rest) = split_once(rest, *delimiter)?;
    let (port, rest) = split_once(rest, *delimiter)?;
    if !rest.is_empty() {
        return None;
    }
    fields_argument(protocol, address, port, client)
}
