// Where a direction stands, what that says of its octets, and how much of its line may be held.
#![tactic(auto)]

ghost use Rattle.std.specs.Prelude.{◌≡◌, true, ◌+◌, ◌<◌, ltb, take};
ghost use Rattle.rules.specs.Lines.{judged};
ghost use Rattle.places.specs.Places.{is_holding, is_flowing, is_passing, is_in_lines, is_ended};
ghost use Rattle.places.specs.Places.{direction_from_now};

use rules::HELD;

pub const LF: u8 = 10;

// Where a direction stands: its line's octets are held, its long line flows, its octets pass at once, or it has ended.
#[derive(Clone, Copy)]
pub enum Place {
    Holding,
    Flowing,
    Passing,
    Ended,
}

// A direction's place, and how many octets of its unfinished line are held.
#[derive(Clone, Copy)]
pub struct Direction {
    pub place: Place,
    pub held: usize,
}

// The first n octets of a line or of the kinds, or all of them where there are fewer.
pub fn first_octets(line: &[u8], n: usize) -> &[u8]
    ensures { result.now ≡ take n line.now }
{
    &line[..n.min(line.len())]
}

// Whether another octet that is no LF is held too, as its line may still be judged whole. `fits` lets callers count it.
pub fn is_held(held: usize) -> bool
    ensures result { result ≡ ltb (held + 1) judged }
    ensures fits { result ≡ true → held + 1 < 65536 }
{
    held < HELD
}

// Its line's octets are held.
pub fn is_holding(direction: Direction) -> bool
    ensures { result ≡ is_holding direction.place }
{
    matches!(direction.place, Place::Holding)
}

// Its long line flows.
pub fn is_flowing(direction: Direction) -> bool
    ensures { result ≡ is_flowing direction.place }
{
    matches!(direction.place, Place::Flowing)
}

// Its octets pass at once.
pub fn is_passing(direction: Direction) -> bool
    ensures { result ≡ is_passing direction.place }
{
    matches!(direction.place, Place::Passing)
}

// Its octets are read as lines, with the Telnet layer below them: they do not pass at once, and it has not ended.
pub fn in_lines(direction: Direction) -> bool
    ensures { result ≡ is_in_lines direction.place }
{
    matches!(direction.place, Place::Holding | Place::Flowing)
}

// It has ended.
pub fn has_ended(direction: Direction) -> bool
    ensures { result ≡ is_ended direction.place }
{
    matches!(direction.place, Place::Ended)
}

// The direction, field by field. Copied whole it drags its padding along, in wide loads that wait for narrow stores.
pub fn copied(direction: Direction) -> Direction
    ensures { result ≡ direction }
{
    let place = direction.place;
    Direction {
        place,
        held: direction.held,
    }
}

// The direction, whose octets pass at once from now on unless it has ended.
pub fn passes_from_now(direction: Direction) -> Direction
    ensures { result ≡ direction_from_now direction direction.place }
{
    match direction.place {
        Place::Ended => direction,
        _ => Direction {
            place: Place::Passing,
            held: 0,
        },
    }
}
