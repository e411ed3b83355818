// Reading a network file into lent buffers.
#![tactic(auto)]

ghost use Rattle.std.specs.Prelude.{◌≡◌, ◌≢◌, ◌+◌, ◌*◌, ◌<◌, ◌≤◌, [], ◌∷◌, length};
ghost use Rattle.kinds.specs.Answers.{answer_of};
ghost use Rattle.reading.specs.Numbers.{number_at, mark_ln, mark_rt, mark_en};
ghost use Rattle.reading.specs.Parts.{placed};
ghost use Rattle.reading.specs.Reading.{line_ends, line_numbers, start_numbers, offset_after, length_here, record_judged, order_after, record_counted, record_after, end_read, records_read, file_read};
ghost use Rattle.reading.specs.Answers.{record_answer, reading_answer, ReadAllows};

use kinds::{Level, Offset, Place, Position, Refusal};

// The mark of the network's record. A mark is two letters as a number, low byte first.
pub const NW: u16 = 22350;

// The mark of a line's record.
pub const LN: u16 = 20044;

// The mark of a starting station's record.
pub const RT: u16 = 21586;

// The mark of the record that ends a file.
pub const EN: u16 = 20037;

// The most lines of a file.
const MOST_LINES: usize = 8192;

// The most starting stations of a file.
const MOST_STARTS: usize = 16;

// Where in the file's order a record stands: before all others, before any RT, or after one.
#[derive(Clone, Copy)]
pub enum Order {
    First,
    Lines,
    Starts,
}

// How many LN and RT records stand before a record.
#[derive(Clone, Copy)]
pub struct Counts {
    pub lines: usize,
    pub starts: usize,
}

// A record after NW.
#[derive(Clone, Copy)]
pub enum Record {
    Line,
    Start,
    End,
}

// What reading found: the number of stations, the level, and how many lines and starts. None of it is judged.
#[derive(Clone, Copy)]
pub struct Found {
    pub stations: usize,
    pub level: Level,
    pub counts: Counts,
}

impl Counts {
    // The offset after NW and these records.
    fn offset(self) -> Offset
        requires { offset_after self.lines self.starts < 18446744073709551616 }
        ensures offset { result.0 ≡ offset_after self.lines self.starts }
    {
        Offset(6 + 6 * self.lines + 4 * self.starts)
    }

    // What the order allows after these records.
    fn order(self) -> Order
        ensures order { result ≡ order_after self.starts }
    {
        if self.starts == 0 {
            return Order::Lines;
        }
        Order::Starts
    }
}

// The number at an offset: 16 bits, low byte first.
fn number_at(bytes: &[u8], offset: Offset) -> u16
    requires { offset.0 + 2 ≤ length bytes.now }
    ensures number { result ≡ number_at bytes.now offset.0 }
{
    let at = offset.0;
    u16::from_le_bytes([bytes[at], bytes[at + 1]])
}

// The length of the record that a mark begins, by its kind and by what the order allows: 0 where it is not allowed here.
#[tactic(auto, unfolding(crate::specs::Reading::length_here))]
fn length_here(mark: u16, order: Order) -> usize
    ensures length { result ≡ length_here order mark }
{
    match (order, mark) {
        (Order::First, NW) => 6,
        (Order::Lines, LN) => 6,
        (Order::Lines, RT) => 4,
        (Order::Lines, EN) => 4,
        (Order::Starts, RT) => 4,
        (Order::Starts, EN) => 4,
        _ => 0,
    }
}

// Whether an allowed record stands whole at an offset: refusals 21 and 20.
#[tactic(auto, unfolding(crate::specs::Reading::record_judged))]
fn judge_record(bytes: &[u8], offset: Offset, order: Order) -> Result<(), Refusal>
    requires { offset.0 ≤ length bytes.now }
    ensures answer { answer_of result ≡ record_judged order bytes.now offset.0 }
{
    let left = bytes.len() - offset.0;
    if left < 2 {
        return Err(Refusal::FileEnds(offset));
    }
    let mark = number_at(bytes, offset);
    let length = length_here(mark, order);
    if length == 0 {
        return Err(Refusal::Mark(offset));
    }
    if left < length {
        return Err(Refusal::FileEnds(offset));
    }
    Ok(())
}

// The record with a mark after some LN and RT records: the 8,193rd LN is refused with 2, the 17th RT with 4.
#[tactic(auto, unfolding(crate::specs::Reading::record_counted))]
fn counted_record(mark: u16, counts: Counts) -> Result<Record, Refusal>
    requires { (mark ≢ mark_ln → mark ≢ mark_rt → mark ≡ mark_en) × (offset_after counts.lines counts.starts < 18446744073709551616) }
    ensures record { record_answer result ≡ record_counted mark counts.lines counts.starts }
{
    match mark {
        LN => {
            if counts.lines == MOST_LINES {
                return Err(Refusal::FileLineCount(counts.offset()));
            }
            Ok(Record::Line)
        }
        RT => {
            if counts.starts == MOST_STARTS {
                return Err(Refusal::FileStartCount(counts.offset()));
            }
            Ok(Record::Start)
        }
        _ => Ok(Record::End),
    }
}

// The record after some LN and RT records.
#[tactic(auto, unfolding(crate::specs::Reading::record_after))]
fn record_after(bytes: &[u8], counts: Counts) -> Result<Record, Refusal>
    requires { offset_after counts.lines counts.starts ≤ length bytes.now }
    ensures record { record_answer result ≡ record_after bytes.now counts.lines counts.starts }
{
    let offset = counts.offset();
    judge_record(bytes, offset, counts.order())?;
    counted_record(number_at(bytes, offset), counts)
}

// EN after some LN and RT records: 22 is tried before 23.
#[tactic(auto, unfolding(crate::specs::Reading::end_read))]
fn read_end(bytes: &[u8], counts: Counts) -> Result<Found, Refusal>
    requires { offset_after counts.lines counts.starts + 4 ≤ length bytes.now }
    ensures answer { reading_answer result ≡ end_read bytes.now counts.lines counts.starts }
{
    let at = counts.offset().0;
    let count = number_at(bytes, Offset(at + 2)) as usize;
    if count != counts.lines {
        return Err(Refusal::EndCount(Offset(at)));
    }
    if at + 4 < bytes.len() {
        return Err(Refusal::BytesFollow(Offset(at + 4)));
    }
    let stations = number_at(bytes, Offset(2)) as usize;
    let level = Level(number_at(bytes, Offset(4)) as usize);
    Ok(Found {
        stations,
        level,
        counts,
    })
}

// The records after NW, taken in order.
fn read_records(bytes: &[u8]) -> Result<Found, Refusal>
    requires { 6 ≤ length bytes.now }
    ensures answer { reading_answer result ≡ records_read bytes.now 0 0 (length bytes.now) }
{
    let mut lines = 0;
    let mut starts = 0;
    loop {
        let counts = Counts { lines, starts };
        match record_after(bytes, counts)? {
            Record::Line => lines += 1,
            Record::Start => starts += 1,
            Record::End => return read_end(bytes, counts),
        }
    }
}

// What the bytes of a file say: all its records, looked at and not yet copied.
#[tactic(auto, unfolding(crate::specs::Reading::file_read))]
pub fn read_file(bytes: &[u8]) -> Result<Found, Refusal>
    ensures answer { reading_answer result ≡ file_read bytes.now }
{
    judge_record(bytes, Offset(0), Order::First)?;
    read_records(bytes)
}

// Copies the two ends of the LN record at a place.
fn copy_line(bytes: &[u8], place: Place, lines: &mut [u16])
    requires { (offset_after place.0 0 + 6 ≤ length bytes.now) × (2 * place.0 + 2 ≤ length lines.old) }
    ensures lines { lines.new ≡ placed lines.old (2 * place.0) (line_ends bytes.now place.0) }
{
    let p = place.0 as usize;
    let at = 6 + 6 * p;
    let one = number_at(bytes, Offset(at + 2));
    let two = number_at(bytes, Offset(at + 4));
    lines[2 * p] = one;
    lines[2 * p + 1] = two;
}

// Copies the ends of the LN records, in order.
fn copy_lines(bytes: &[u8], count: usize, lines: &mut [u16])
    requires { (offset_after count 0 ≤ length bytes.now) × (count ≤ 8192) × (2 * count ≤ length lines.old) }
    ensures lines { lines.new ≡ placed lines.old 0 (line_numbers bytes.now count) }
{
    for p in 0..count {
        copy_line(bytes, Place(p as u16), lines);
    }
}

// Copies the starting station of the RT record at an offset to a position.
fn copy_start(bytes: &[u8], offset: Offset, position: Position, starts: &mut [u16])
    requires { (offset.0 + 4 ≤ length bytes.now) × (position.0 < length starts.old) }
    ensures starts { starts.new ≡ placed starts.old position.0 (number_at bytes.now (offset.0 + 2) ∷ []) }
{
    let q = position.0 as usize;
    let at = offset.0;
    let start = number_at(bytes, Offset(at + 2));
    starts[q] = start;
}

// Copies the starting stations of the RT records, in order.
fn copy_starts(bytes: &[u8], counts: Counts, starts: &mut [u16])
    requires { (offset_after counts.lines counts.starts ≤ length bytes.now) × (counts.starts ≤ 16) × (counts.starts ≤ length starts.old) }
    ensures starts { starts.new ≡ placed starts.old 0 (start_numbers bytes.now counts.lines counts.starts) }
{
    let m = counts.lines;
    let count = counts.starts;
    for q in 0..count {
        copy_start(bytes, Offset(6 + 6 * m + 4 * q), Position(q as u16), starts);
    }
}

// Copies the lines and the starting stations of a file that was read, from the front of each buffer.
pub fn copy_network(bytes: &[u8], counts: Counts, lines: &mut [u16], starts: &mut [u16])
    requires { (offset_after counts.lines counts.starts ≤ length bytes.now) × (counts.lines ≤ 8192) × (counts.starts ≤ 16) × (2 * counts.lines ≤ length lines.old) × (counts.starts ≤ length starts.old) }
    ensures lines { lines.new ≡ placed lines.old 0 (line_numbers bytes.now counts.lines) }
    ensures starts { starts.new ≡ placed starts.old 0 (start_numbers bytes.now counts.lines counts.starts) }
{
    copy_lines(bytes, counts.lines, lines);
    copy_starts(bytes, counts, starts);
}

// Reads a network file: the room, then all its records, and only then the lent buffers are written.
pub fn read(bytes: &[u8], lines: &mut [u16], starts: &mut [u16]) -> Result<Found, Refusal>
    ensures allowed { ReadAllows bytes.now lines.old starts.old result lines.new starts.new }
{
    if lines.len() < 2 * MOST_LINES || starts.len() < MOST_STARTS {
        return Err(Refusal::Room);
    }
    let found = read_file(bytes)?;
    copy_network(bytes, found.counts, lines, starts);
    Ok(found)
}
