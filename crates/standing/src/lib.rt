// What the program weak writes: a header, then one row that tells whether the network stands.
#![tactic(auto)]

ghost use Rattle.std.specs.Prelude.{◌≡◌, ◌+◌, ◌≤◌, length};
ghost use Rattle.report.specs.Answers.{written_answer, written_over};
ghost use Rattle.report.specs.Writing.{Puts};
ghost use Rattle.parting.specs.Answers.{spot_stations, found_standing};
ghost use Rattle.standing.specs.Text.{weak_header_text, spot_text, weak_row_text, standing_text, weak_text, weak_short};

use kinds::{Level, Station};
use parting::{Spot, WeakSpot};
use report::{TooShort, put_field, put_newline, put_word};

// Writes the header at the front.
fn put_weak_header(text: &mut [u8], n: usize, level: Level, count: usize) -> usize
    requires { 128 ≤ length text.old }
    ensures put { Puts text.old 0 (weak_header_text n level.0 count) text.new result }
    ensures most { result ≤ 128 }
{
    let stations = put_field(text, 0, b"stations ", n);
    let asked = put_field(text, stations, b" level ", level.0);
    let lines = put_field(text, asked, b" lines ", count);
    put_newline(text, lines)
}

// Writes the stations of a spot.
fn put_spot(text: &mut [u8], at: usize, spot: Spot) -> usize
    requires { at + 12 ≤ length text.old }
    ensures put { Puts text.old at (spot_text (spot_stations spot)) text.new result }
    ensures most { result ≤ at + 12 }
{
    match spot {
        Spot::Empty => at,
        Spot::One(v) => put_field(text, at, b" ", v.0 as usize),
        Spot::Two(v, w) => {
            let next = put_field(text, at, b" ", v.0 as usize);
            put_field(text, next, b" ", w.0 as usize)
        }
    }
}

// Writes the row of a weak spot.
fn put_weak(text: &mut [u8], at: usize, weak: WeakSpot) -> usize
    requires { at + 64 ≤ length text.old }
    ensures put { Puts text.old at (weak_row_text (spot_stations weak.spot) weak.one.0 weak.two.0) text.new result }
{
    let spot = weak.spot;
    let word = put_word(text, at, b"weak");
    let stations = put_spot(text, word, spot);
    let parted = put_field(text, stations, b" parts ", weak.one.0 as usize);
    let left = put_field(text, parted, b" from ", weak.two.0 as usize);
    put_newline(text, left)
}

// Writes the row of what is found of a network.
fn put_standing(text: &mut [u8], at: usize, found: Option<WeakSpot>) -> usize
    requires { at + 64 ≤ length text.old }
    ensures put { Puts text.old at (standing_text (found_standing found)) text.new result }
{
    match found {
        None => put_word(text, at, b"stands\n"),
        Some(weak) => put_weak(text, at, weak),
    }
}

// Writes what weak writes of a network with `count` lines, from the front of `text`. It is an error, and nothing changes, where `text` has less
// than 256 bytes.
pub fn write_standing(
    n: usize,
    level: Level,
    count: usize,
    found: Option<WeakSpot>,
    text: &mut [u8],
) -> Result<usize, TooShort>
    ensures answer { result ≡ written_answer (weak_short (length text.old)) (weak_text n level.0 count (found_standing found)) }
    ensures text { text.new ≡ written_over (weak_short (length text.old)) (weak_text n level.0 count (found_standing found)) text.old }
{
    if text.len() < 256 {
        return Err(TooShort);
    }
    let at = put_weak_header(text, n, level, count);
    let end = put_standing(text, at, found);
    Ok(end)
}
