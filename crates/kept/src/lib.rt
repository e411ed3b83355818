// The kept lines of a list: counted, and copied out; and copying out whichever lines of a list are chosen.
#![tactic(auto)]

ghost use Rattle.std.specs.Prelude.{◌≡◌, Bool, ◌++◌, ℕ, ◌*◌, ◌/◌, ◌≤◌, ◌<◌, length, set, drop};
ghost use Rattle.laws.specs.Count.{bit, count};
ghost use Rattle.laws.specs.Fold.{pick};
ghost use Rattle.kinds.specs.declared.Place.{Place};
ghost use Rattle.kept.specs.Answers.{CopyAllows};
ghost use Rattle.kept.specs.Chosen.{Chooses};
ghost use Rattle.kept.specs.Kept.{chosen_lines, kept_count, kept_of};

use kinds::{LineList, Place, Refusal};
use limits::judge_length;
use network::{Line, line_at, line_places};

// The number of nonzero ranks.
#[tactic(auto, unfolding(crate::specs::Kept::kept_count), using(crate::proofs::Copying::rank_counted, crate::proofs::Copying::rank_passed))]
pub fn count_kept(ranks: &[u8]) -> usize
    ensures count { result ≡ kept_count ranks.now }
{
    let mut kept = 0;
    for rank in ranks {
        if *rank != 0 {
            kept += 1;
        }
    }
    kept
}

// Puts the two ends of a line at the front of the room if the line is chosen: how many numbers are put.
fn put_chosen(line: Line, chosen: bool, room: &mut [u16]) -> usize
    requires { 2 * bit chosen ≤ length room.old }
    ensures count { result ≡ 2 * bit chosen }
    ensures put { room.new ≡ pick chosen (set (set room.old 0 line.one.0) 1 line.two.0) room.old }
{
    if chosen {
        room[0] = line.one.0;
        room[1] = line.two.0;
        return 2;
    }
    0
}

// Puts the chosen lines of a list, in list order, at the front of the room; what stands behind them stays.
pub fn put_lines<F: Fn(Place) -> bool>(lines: &[u16], chosen: F, room: &mut [u16])
    requires few { length lines.now ≤ 16384 }
    requires asked { (place : Place) → place.0 < length lines.now / 2 → F.pre chosen place }
    requires fits { (test : ℕ → Bool) × Chooses (F.post chosen) test (length lines.now / 2) × (2 * count (length lines.now / 2) test ≤ length room.old) }
    ensures put { (test : ℕ → Bool) → Chooses (F.post chosen) test (length lines.now / 2) → room.new ≡ chosen_lines test lines.now ++ drop (length (chosen_lines test lines.now)) room.old }
{
    let mut at = 0;
    for place in line_places(lines) {
        at += put_chosen(line_at(lines, place), chosen(place), &mut room[at..]);
    }
}

// Puts the chosen lines of a list, in list order, into a room that they just fill. Each line is put where the next chosen one belongs, and
// stays there only if it is chosen: so no branch hangs on which lines these are, but for where the last of them stands.
fn pack_lines<F: Fn(Place) -> bool>(lines: &[u16], chosen: F, room: &mut [u16])
    requires few { length lines.now ≤ 16384 }
    requires asked { (place : Place) → place.0 < length lines.now / 2 → F.pre chosen place }
    requires fits { (test : ℕ → Bool) × Chooses (F.post chosen) test (length lines.now / 2) × (2 * count (length lines.now / 2) test ≡ length room.old) }
    ensures put { (test : ℕ → Bool) → Chooses (F.post chosen) test (length lines.now / 2) → 2 * count (length lines.now / 2) test ≡ length room.old → room.new ≡ chosen_lines test lines.now }
{
    let mut at = 0;
    for place in line_places(lines) {
        if room.len() <= at {
            return;
        }
        let ends = line_at(lines, place);
        room[at] = ends.one.0;
        room[at + 1] = ends.two.0;
        at += 2 * usize::from(chosen(place));
    }
}

// The number of nonzero ranks of one list: so few are counted in 16 bits, of which the machine code adds eight at once.
#[tactic(auto, unfolding(crate::specs::Kept::kept_count), using(crate::proofs::Copying::rank_counted, crate::proofs::Copying::rank_passed))]
fn count_few(ranks: &[u8]) -> u16
    requires { length ranks.now ≤ 8192 }
    ensures count { result ≡ kept_count ranks.now }
{
    let mut kept = 0;
    for rank in ranks {
        if *rank != 0 {
            kept += 1;
        }
    }
    kept
}

// How many of a list's lines are kept; 0 where a rank is missing.
#[tactic(auto, using(crate::proofs::Copying::kept_of_lem))]
fn count_of(lines: &[u16], ranks: &[u8]) -> usize
    requires { length lines.now ≤ 16384 }
    ensures count { length lines.now / 2 ≤ length ranks.now → result ≡ kept_of lines.now ranks.now }
{
    let count = lines.len() / 2;
    if ranks.len() < count {
        return 0;
    }
    count_few(&ranks[..count]) as usize
}

// Copies the kept lines of a list out, in list order. Any nonzero rank is kept.
#[tactic(auto, unfolding(crate::specs::Kept::copy_answer, crate::specs::Kept::after, limits::specs::Limits::room_judged))]
pub fn copy_kept(lines: &[u16], ranks: &[u8], room: &mut [u16]) -> Result<usize, Refusal>
    ensures allowed { CopyAllows lines.now ranks.now room.old result room.new }
{
    judge_length(LineList::Only, lines)?;
    if ranks.len() < lines.len() / 2 {
        return Err(Refusal::Room);
    }
    let kept = count_of(lines, ranks);
    if room.len() / 2 < kept {
        return Err(Refusal::Room);
    }
    let front = &mut room[..2 * kept];
    pack_lines(lines, |place| ranks[place.0 as usize] != 0, front);
    Ok(kept)
}
