// Counts: what each direction has taken and written, and its offset.
#![tactic(auto)]

ghost use Rattle.std.specs.Prelude.{◌≡◌};
ghost use Rattle.rules.specs.Answers.{wrapped, client as client_side, server as server_side};
ghost use Rattle.records.specs.Sound.{side_if};
ghost use Rattle.counts.specs.Counts.{counted as counted_by, taken_for, written_from, offset as offset_in};

use records::{Counts, Session};
use steps::Written;

// The counts of both directions.
#[derive(Clone, Copy)]
pub struct BothCounts {
    pub up: Counts,
    pub down: Counts,
}

// What both directions count after a call on one of them: octets taken count for the direction that they came from.
pub fn counts_then(
    up: Counts,
    down: Counts,
    from_client: bool,
    taken: usize,
    written: Written,
) -> BothCounts
    ensures { let d = side_if from_client in
        (result.up ≡ counted_by up (taken_for client_side d taken) written.server)
        × (result.down ≡ counted_by down (taken_for server_side d taken) written.client) }
{
    let mut from_there = taken;
    let mut from_here = 0;
    if from_client {
        from_there = 0;
        from_here = taken;
    }
    BothCounts {
        up: counted(up, from_here, written.server),
        down: counted(down, from_there, written.client),
    }
}

// Counts that advance and wrap.
fn counted(counts: Counts, taken: usize, written: usize) -> Counts
    ensures { result ≡ counted_by counts taken written }
{
    Counts {
        taken: counts.taken.wrapping_add(low_half(taken)),
        written: counts.written.wrapping_add(low_half(written)),
    }
}

// The program `calls` has one of its own: a line is less than a function that another crate can reach.
fn low_half(n: usize) -> u32
    ensures { result ≡ wrapped n }
{
    (n % 4294967296) as u32
}

// What was written for a direction: the client's octets go to the server.
pub fn written_from(from_client: bool, n: usize) -> Written
    ensures { result ≡ written_from (side_if from_client) n }
{
    if from_client {
        return Written {
            server: n,
            client: 0,
        };
    }
    Written {
        server: 0,
        client: n,
    }
}

// The offset of a direction: written minus taken, modulo 2^32. Directions are numbers, since number 3 refuses one that
// there is not.
pub fn offset(session: Session, direction: u8) -> Option<u32>
    ensures { result ≡ offset_in session direction }
{
    if 2 <= direction {
        return None;
    }
    let mut counts = session.up;
    if direction == 1 {
        counts = session.down;
    }
    Some(counts.written.wrapping_sub(counts.taken))
}
