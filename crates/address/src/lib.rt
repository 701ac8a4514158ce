// IPv6 text.
#![tactic(auto)]

ghost use Rattle.std.specs.Prelude.{◌≡◌, List, [], ◌∷◌, ◌++◌, ℕ, ◌+◌, ◌≤◌, ◌==◌, length, take};
ghost use Rattle.std.specs.List.{position};
ghost use Rattle.std.specs.Prelude.{None, Some, IfSome};
ghost use Rattle.rules.specs.Octets.{choose, colon, dot, parts};
ghost use Rattle.rules.specs.Address.{hex_digit, hex_digit_value, group as group_of, both, octet_number};
ghost use Rattle.rules.specs.Address.{dotted as dotted_of};
ghost use Rattle.rules.specs.Address.{last_group, groups as groups_of, half as half_of, halves as halves_of};
ghost use Rattle.rules.specs.Address.{eight_groups};
ghost use Rattle.rules.specs.Address.{filled as filled_of, ipv6 as ipv6_of};
ghost use Rattle.address.specs.Text.{read_by, Reads, halves_at};

use octets::read_number;
use rules::IPV6;
use std::marker::Model;

// The octets read so far, at most sixteen. They are lent from reader to reader: handed on by value the array would be
// loaded whole after each octet stored.
#[derive(Drop)]
struct Octets {
    octets: [u8; IPV6],
    count: usize,
}

impl Model for Octets {
    ghost Value = { List ℕ };

    ghost view = { λ o. take o.count o.octets };

    ghost invariant = { λ o. o.count ≤ 16 };
}

// The value of a hex digit.
fn hex_value(x: u8) -> Option<u8>
    ensures { result ≡ choose (hex_digit x) (Some (hex_digit_value x)) None }
{
    match x {
        b'0'..=b'9' => Some(x - b'0'),
        b'A'..=b'F' => Some(x - b'A' + 10),
        b'a'..=b'f' => Some(x - b'a' + 10),
        _ => None,
    }
}

// The two octets that 1 to 4 hex digits write.
fn hex_group(digits: &[u8]) -> Option<[u8; 2]>
    ensures { result ≡ group_of digits.now }
{
    if digits.is_empty() {
        return None;
    }
    if digits.len() > 4 {
        return None;
    }
    let mut value: u32 = 0;
    for digit in digits {
        value = value * 16 + u32::from(hex_value(*digit)?);
    }
    Some([(value / 256) as u8, (value % 256) as u8])
}

// How often x stands in s.
fn times(s: &[u8], x: u8) -> usize
    ensures { length (parts x s.now) ≡ result + 1 }
{
    s.iter().filter(|y| **y == x).count()
}

// Where the first `::` stands.
fn double_colon(text: &[u8]) -> Option<usize>
    ensures halves { halves_of text.now ≡ halves_at result text.now }
    ensures within { IfSome result (λ n. n + 2 ≤ length text.now) }
{
    text.windows(2).position(|pair| pair == b"::".as_slice())
}

// Where the first colon stands.
fn first_colon(text: &[u8]) -> Option<usize>
    ensures { result ≡ position (λ x. x == 58) text.now }
{
    text.iter().position(|x| *x == b':')
}

impl Octets {
    // Nothing is read yet.
    fn new() -> Octets
        ensures { result ≡ [] }
    {
        Octets {
            octets: [0; IPV6],
            count: 0,
        }
    }

    // What is read.
    fn as_slice(&self) -> &[u8]
        ensures { result.now ≡ self.now }
    {
        &self.octets[..self.count]
    }

    // One octet more.
    fn push(&mut self, x: u8) -> Option<()>
        ensures { Reads (read_by result self.new) (Some (self.old ++ (x ∷ []))) }
    {
        if self.count == IPV6 {
            return None;
        }
        self.octets[self.count] = x;
        self.count += 1;
        Some(())
    }

    // The two octets of a group more.
    fn push_group(&mut self, digits: &[u8]) -> Option<()>
        ensures { Reads (read_by result self.new) (both (Some self.old) (group_of digits.now)) }
    {
        let [high, low] = hex_group(digits)?;
        self.push(high)?;
        self.push(low)
    }

    // The octet of a decimal number more.
    fn push_number(&mut self, digits: &[u8]) -> Option<()>
        ensures { Reads (read_by result self.new) (both (Some self.old) (octet_number digits.now)) }
    {
        let value = read_number(digits, 3, 0, 255)?;
        self.push(value as u8)
    }

    // The octets of dotted numbers more.
    fn push_dotted(&mut self, text: &[u8]) -> Option<()>
        ensures { Reads (read_by result self.new) (both (Some self.old) (dotted_of (parts dot text.now))) }
    {
        for number in text.split(|x| *x == b'.') {
            self.push_number(number)?;
        }
        Some(())
    }

    // The octets of the last part of a text more: four dotted numbers, or a group.
    fn push_last(&mut self, text: &[u8]) -> Option<()>
        ensures { Reads (read_by result self.new) (both (Some self.old) (last_group text.now)) }
    {
        if times(text, b'.') == 3 {
            self.push_dotted(text)
        } else {
            self.push_group(text)
        }
    }

    // Groups with single colons between; `ends` says that they end the text.
    fn push_groups(&mut self, text: &[u8], ends: bool) -> Option<()>
        ensures { Reads (read_by result self.new) (both (Some self.old) (groups_of ends (parts colon text.now))) }
    {
        let mut rest = text;
        while let Some(end) = first_colon(rest) {
            self.push_group(&rest[..end])?;
            rest = &rest[end + 1..];
        }
        if ends {
            self.push_last(rest)
        } else {
            self.push_group(rest)
        }
    }

    // One side of `::`: nothing, or groups.
    fn push_half(&mut self, text: &[u8], ends: bool) -> Option<()>
        ensures { Reads (read_by result self.new) (both (Some self.old) (half_of ends text.now)) }
    {
        if text.is_empty() {
            return Some(());
        }
        self.push_groups(text, ends)
    }

    // Without `::` there are sixteen octets.
    fn whole(&self) -> Option<[u8; IPV6]>
        ensures { result ≡ eight_groups (Some self.now) }
    {
        if self.count == IPV6 {
            Some(self.octets)
        } else {
            None
        }
    }
}

// With `::` there are zeros, for one group at least, between its two sides.
fn filled(head: &[u8], tail: &[u8]) -> Option<[u8; IPV6]>
    ensures { result ≡ filled_of (Some head.now) (Some tail.now) }
{
    if head.len() + tail.len() > 14 {
        return None;
    }
    let mut octets = [0u8; IPV6];
    octets[..head.len()].copy_from_slice(head);
    octets[IPV6 - tail.len()..].copy_from_slice(tail);
    Some(octets)
}

// The address that a text writes.
pub fn ipv6(text: &[u8]) -> Option<[u8; IPV6]>
    ensures { result ≡ ipv6_of text.now }
{
    let mut head = Octets::new();
    let Some(at) = double_colon(text) else {
        head.push_groups(text, true)?;
        return head.whole();
    };
    let rest = at + 2;
    let mut tail = Octets::new();
    head.push_half(&text[..at], false)?;
    tail.push_half(&text[rest..], true)?;
    filled(head.as_slice(), tail.as_slice())
}
