// How an answer crosses to C: a refusal, a verdict, a weak spot or a text as numbers, written where the caller says.
#![tactic(auto)]

ghost use Rattle.std.specs.Prelude.{◌≡◌, length, get_or};
ghost use Rattle.kinds.specs.Answers.{Answer.given, answer_of};
ghost use Rattle.entries.specs.Answers.{kind_of, fault_place, verdict_said};
ghost use Rattle.parting.specs.Answers.{spot_stations, found_standing};
ghost use Rattle.codes.specs.Codes.{number_said, place_said, list_said, letter_number, kind_said, round_said, fault_place_said, weak_said, spot_said, one_said, two_said, written_number, written_count};

use entries::{FaultKind, Verdict};
use kinds::{Refusal, Station, list_of, number_of, place_of};
use parting::{Spot, WeakSpot};
use report::TooShort;

// Whether an answer is refused: 0, at no place, of no list, or the refusal's number, with its place and its list written.
pub fn say<T>(answer: &Result<T, Refusal>, place: &mut usize, list: &mut u8) -> u8
    ensures number { result ≡ number_said (answer_of answer.now) }
    ensures place { place.new ≡ place_said (answer_of answer.now) }
    ensures list { list.new ≡ list_said (answer_of answer.now) }
{
    match answer {
        Ok(_) => {
            *place = 0;
            *list = 0;
            0
        }
        Err(refusal) => {
            *place = place_of(*refusal).0;
            *list = list_of(*refusal);
            number_of(*refusal)
        }
    }
}

// The number of a fault's kind: 1 for A to 5 for E.
fn kind_number(kind: FaultKind) -> u8
    ensures number { result ≡ letter_number (kind_of kind) }
{
    match kind {
        FaultKind::RankAbove(_) => 1,
        FaultKind::NotEachOnce(_) => 2,
        FaultKind::ParentLacking(_) => 3,
        FaultKind::OtherParent(_) => 4,
        FaultKind::TreesApart(_) => 5,
    }
}

// Where a fault is: a line's place, a position or a station, by its kind.
#[derive(Clone, Copy)]
struct FaultPlace(usize);

// The place of a fault.
fn fault_place(kind: FaultKind) -> FaultPlace
    ensures place { result.0 ≡ fault_place kind }
{
    match kind {
        FaultKind::RankAbove(place) => FaultPlace(place.0 as usize),
        FaultKind::NotEachOnce(position) => FaultPlace(position.0 as usize),
        FaultKind::ParentLacking(station) => FaultPlace(station.0 as usize),
        FaultKind::OtherParent(station) => FaultPlace(station.0 as usize),
        FaultKind::TreesApart(place) => FaultPlace(place.0 as usize),
    }
}

// What the check found: a fault's kind, its round and its place are written, 0 where there is none.
pub fn say_verdict(verdict: Verdict, kind: &mut u8, round: &mut u8, at: &mut usize)
    ensures kind { kind.new ≡ kind_said (given (verdict_said verdict)) }
    ensures round { round.new ≡ round_said (given (verdict_said verdict)) }
    ensures at { at.new ≡ fault_place_said (given (verdict_said verdict)) }
{
    match verdict {
        Verdict::Accepted => {
            *kind = 0;
            *round = 0;
            *at = 0;
        }
        Verdict::Faulty(fault) => {
            *kind = kind_number(fault.kind);
            *round = fault.round.0;
            *at = fault_place(fault.kind).0;
        }
    }
}

// How many stations a spot has.
fn spot_size(spot: Spot) -> u8
    ensures size { result ≡ length (spot_stations spot) }
{
    match spot {
        Spot::Empty => 0,
        Spot::One(_) => 1,
        Spot::Two(_, _) => 2,
    }
}

// The first station of a spot, 0 where there is none.
fn spot_first(spot: Spot) -> Station
    ensures station { result.0 ≡ get_or (spot_stations spot) 0 0 }
{
    match spot {
        Spot::Empty => Station(0),
        Spot::One(station) => station,
        Spot::Two(first, _) => first,
    }
}

// The second station of a spot, 0 where there is none.
fn spot_second(spot: Spot) -> Station
    ensures station { result.0 ≡ get_or (spot_stations spot) 1 0 }
{
    match spot {
        Spot::Empty => Station(0),
        Spot::One(_) => Station(0),
        Spot::Two(_, second) => second,
    }
}

// The stations of a spot.
fn say_spot(spot: Spot, size: &mut u8, first: &mut u16, second: &mut u16)
    ensures size { size.new ≡ length (spot_stations spot) }
    ensures first { first.new ≡ get_or (spot_stations spot) 0 0 }
    ensures second { second.new ≡ get_or (spot_stations spot) 1 0 }
{
    *size = spot_size(spot);
    *first = spot_first(spot).0;
    *second = spot_second(spot).0;
}

// What the search found: the spot and the two stations that it parts, all 0 where the network stands.
pub fn say_found(
    found: Option<WeakSpot>,
    weak: &mut u8,
    size: &mut u8,
    first: &mut u16,
    second: &mut u16,
    one: &mut u16,
    two: &mut u16,
)
    ensures weak { weak.new ≡ weak_said (given (found_standing found)) }
    ensures size { size.new ≡ length (spot_said (given (found_standing found))) }
    ensures first { first.new ≡ get_or (spot_said (given (found_standing found))) 0 0 }
    ensures second { second.new ≡ get_or (spot_said (given (found_standing found))) 1 0 }
    ensures one { one.new ≡ one_said (given (found_standing found)) }
    ensures two { two.new ≡ two_said (given (found_standing found)) }
{
    match found {
        None => {
            *weak = 0;
            say_spot(Spot::Empty, size, first, second);
            *one = 0;
            *two = 0;
        }
        Some(found) => {
            *weak = 1;
            say_spot(found.spot, size, first, second);
            *one = found.one.0;
            *two = found.two.0;
        }
    }
}

// What a text routine says: 0 and the count of bytes, or refusal 5 and none.
pub fn say_written(written: Result<usize, TooShort>, count: &mut usize) -> u8
    ensures number { result ≡ written_number written }
    ensures count { count.new ≡ written_count written }
{
    match written {
        Ok(bytes) => {
            *count = bytes;
            0
        }
        Err(TooShort) => {
            *count = 0;
            5
        }
    }
}
