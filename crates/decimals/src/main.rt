// Writes every port twice, by `output::put_decimal` and the way that it went before, by tens and remainders of ten, and
// compares all octets of the two buffers. The proof speaks of the definition; this runs both, as compiled into this
// program.
#![tactic(auto)]

use std::io;

// Five digits, and an octet on either side that has to stay.
const ROOM: usize = 7;

fn main(rt: HostRuntime) -> io::Result<()> {
    match (0..=u16::MAX).find(|port| !is_alike(*port)) {
        Some(port) => println!(rt; "written otherwise: port {port}"),
        None => println!(rt; "65536 ports written alike"),
    }
}

fn is_alike(port: u16) -> bool {
    let mut old = [b'-'; ROOM];
    let mut new = [b'-'; ROOM];
    let old_end = put_by_tens(&mut old, 1, port);
    let new_end = output::put_decimal(&mut new, 1, port);
    old_end == new_end && old == new
}

// The number as it was put before.
fn put_by_tens(out: &mut [u8], at: usize, n: u16) -> usize {
    let tens = n / 10;
    let hundreds = tens / 10;
    let thousands = hundreds / 10;
    let ten_thousands = thousands / 10;
    let digits = [
        digit(ten_thousands),
        digit(thousands),
        digit(hundreds),
        digit(tens),
        digit(n),
    ];
    let start = 5 - output::decimal_length(n);
    output::put(out, at, &digits[start..])
}

fn digit(n: u16) -> u8 {
    b'0' + (n % 10) as u8
}
