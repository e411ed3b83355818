// Numbers that say what they number, and the refusals with their places.
#![tactic(auto)]

ghost use Rattle.std.specs.Prelude.{◌≡◌};
ghost use Rattle.kinds.specs.Refusals.{list_number, asked_number, number_of, place_of, list_of};

// The number of a station: 0 to n - 1.
#[derive(Clone, Copy, PartialEq, Eq, PartialOrd, Ord)]
pub struct Station(pub u16);

// The place of a line in its list, counted from 0.
#[derive(Clone, Copy, PartialEq, Eq, PartialOrd, Ord)]
pub struct Place(pub u16);

// The number of a round: 1 to k.
#[derive(Clone, Copy, PartialEq, Eq, PartialOrd, Ord)]
pub struct Round(pub u8);

// A position in a list of stations, as an order or the stations taken away, counted from 0.
#[derive(Clone, Copy, PartialEq, Eq, PartialOrd, Ord)]
pub struct Position(pub u16);

// The level k that an owner asks for. It is wide, so that no caller cuts it down before it is refused.
#[derive(Clone, Copy, PartialEq, Eq, PartialOrd, Ord)]
pub struct Level(pub usize);

// The offset of a byte in a file.
#[derive(Clone, Copy, PartialEq, Eq, PartialOrd, Ord)]
pub struct Offset(pub usize);

// Where a refusal says the fault is: a line's place, a round, an index or an offset, by the refusal's row.
#[derive(Clone, Copy)]
pub struct RefusalPlace(pub usize);

// Which line list a refusal speaks of: the only one, or the first or the second of a union.
#[derive(Clone, Copy)]
pub enum LineList {
    Only,
    First,
    Second,
}

// Which of the two stations that were asked about.
#[derive(Clone, Copy)]
pub enum Asked {
    First,
    Second,
}

// Why an input is refused, and where: a variant for each row of the table, the file's own rows after it.
#[derive(Clone, Copy)]
pub enum Refusal {
    // 1: n is not 1 to 1,024.
    StationCount,
    // 2: the line list has an odd length or over 16,384 numbers.
    LineCount(LineList),
    // 3: k is not 1 to 16.
    LevelRange,
    // 4: the number of starting stations is not k.
    StartCount,
    // 5: a lent buffer is shorter than needed.
    Room,
    // 6: a line end is n or more.
    EndOutside(LineList, Place),
    // 7: a line's ends are equal.
    EndsEqual(LineList, Place),
    // 8: the same two ends, either way round, stood earlier.
    StoodEarlier(LineList, Place),
    // 9: a starting station is n or more.
    StartOutside(Round),
    // 10: the taken-away list is not strictly rising, or has a number n or more.
    TakenAway(Position),
    // 11: an asked station is n or more, or taken away.
    AskedStation(Asked),
    // 12: the weak-spot level is not 1 to 3.
    WeakLevel,
    // 13: the union has over 8,192 lines.
    UnionCount,
    // 20: the bytes are not a mark allowed here.
    Mark(Offset),
    // 21: the file ends inside a record or before EN.
    FileEnds(Offset),
    // 22: EN's count is not the number of LN records.
    EndCount(Offset),
    // 23: bytes follow EN.
    BytesFollow(Offset),
    // 2 of a file: the 8,193rd LN.
    FileLineCount(Offset),
    // 4 of a file: the 17th RT.
    FileStartCount(Offset),
}

// The number of a line list: 0 the only one, 1 the first, 2 the second.
impl From<LineList> for u8 {
    ghost from_gives = { λ list number. number ≡ list_number list };

    fn from(list: LineList) -> u8 {
        match list {
            LineList::Only => 0,
            LineList::First => 1,
            LineList::Second => 2,
        }
    }
}

// The number of an asked station: 0 the first, 1 the second.
impl From<Asked> for usize {
    ghost from_gives = { λ asked number. number ≡ asked_number asked };

    fn from(asked: Asked) -> usize {
        match asked {
            Asked::First => 0,
            Asked::Second => 1,
        }
    }
}

// The number of a refusal's row.
pub fn number_of(refusal: Refusal) -> u8
    ensures number { result ≡ number_of refusal }
{
    match refusal {
        Refusal::StationCount => 1,
        Refusal::LineCount(_) => 2,
        Refusal::LevelRange => 3,
        Refusal::StartCount => 4,
        Refusal::Room => 5,
        Refusal::EndOutside(_, _) => 6,
        Refusal::EndsEqual(_, _) => 7,
        Refusal::StoodEarlier(_, _) => 8,
        Refusal::StartOutside(_) => 9,
        Refusal::TakenAway(_) => 10,
        Refusal::AskedStation(_) => 11,
        Refusal::WeakLevel => 12,
        Refusal::UnionCount => 13,
        Refusal::Mark(_) => 20,
        Refusal::FileEnds(_) => 21,
        Refusal::EndCount(_) => 22,
        Refusal::BytesFollow(_) => 23,
        Refusal::FileLineCount(_) => 2,
        Refusal::FileStartCount(_) => 4,
    }
}

// The place of a refusal, for those who write it out beside its number.
pub fn place_of(refusal: Refusal) -> RefusalPlace
    ensures place { result.0 ≡ place_of refusal }
{
    match refusal {
        Refusal::StationCount => RefusalPlace(0),
        Refusal::LineCount(_) => RefusalPlace(0),
        Refusal::LevelRange => RefusalPlace(0),
        Refusal::StartCount => RefusalPlace(0),
        Refusal::Room => RefusalPlace(0),
        Refusal::EndOutside(_, place) => RefusalPlace(place.0 as usize),
        Refusal::EndsEqual(_, place) => RefusalPlace(place.0 as usize),
        Refusal::StoodEarlier(_, place) => RefusalPlace(place.0 as usize),
        Refusal::StartOutside(round) => RefusalPlace(round.0 as usize),
        Refusal::TakenAway(position) => RefusalPlace(position.0 as usize),
        Refusal::AskedStation(asked) => RefusalPlace(usize::from(asked)),
        Refusal::WeakLevel => RefusalPlace(0),
        Refusal::UnionCount => RefusalPlace(0),
        Refusal::Mark(offset) => RefusalPlace(offset.0),
        Refusal::FileEnds(offset) => RefusalPlace(offset.0),
        Refusal::EndCount(offset) => RefusalPlace(offset.0),
        Refusal::BytesFollow(offset) => RefusalPlace(offset.0),
        Refusal::FileLineCount(offset) => RefusalPlace(offset.0),
        Refusal::FileStartCount(offset) => RefusalPlace(offset.0),
    }
}

// Which list a refusal speaks of: 1 or 2 of a union, 3 the records of a file, else 0.
pub fn list_of(refusal: Refusal) -> u8
    ensures list { result ≡ list_of refusal }
{
    match refusal {
        Refusal::StationCount => 0,
        Refusal::LineCount(list) => u8::from(list),
        Refusal::LevelRange => 0,
        Refusal::StartCount => 0,
        Refusal::Room => 0,
        Refusal::EndOutside(list, _) => u8::from(list),
        Refusal::EndsEqual(list, _) => u8::from(list),
        Refusal::StoodEarlier(list, _) => u8::from(list),
        Refusal::StartOutside(_) => 0,
        Refusal::TakenAway(_) => 0,
        Refusal::AskedStation(_) => 0,
        Refusal::WeakLevel => 0,
        Refusal::UnionCount => 0,
        Refusal::Mark(_) => 3,
        Refusal::FileEnds(_) => 3,
        Refusal::EndCount(_) => 3,
        Refusal::BytesFollow(_) => 3,
        Refusal::FileLineCount(_) => 3,
        Refusal::FileStartCount(_) => 3,
    }
}
