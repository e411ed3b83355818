// The refusals that look at sizes alone: of the stations, a line list, a level and the room in lent buffers.
#![tactic(auto)]

ghost use Rattle.std.specs.Prelude.{◌≡◌, ◌||◌, ltb};
ghost use Rattle.kinds.specs.Answers.{answer_of, refuse_if};
ghost use Rattle.kinds.specs.Refusals.{list_number, number_of, place_of, list_of};
ghost use Rattle.limits.specs.Limits.{stations_judged, length_judged, level_judged, room_judged, plan_short, weak_level_judged};

use kinds::{Level, LineList, Refusal};

// The most numbers of a line list: two for each of 8,192 lines.
const MOST_NUMBERS: usize = 16384;

// A number is taken within its limits, and else refused.
fn judge_between(low: usize, high: usize, number: usize, refusal: Refusal) -> Result<(), Refusal>
    ensures answer { answer_of result ≡ refuse_if (ltb number low || ltb high number) (number_of refusal) (place_of refusal) (list_of refusal) }
{
    if number < low || high < number {
        return Err(refusal);
    }
    Ok(())
}

// Refusal 1: n is not 1 to 1,024.
#[tactic(auto, unfolding(crate::specs::Limits::stations_judged))]
pub fn judge_stations(n: usize) -> Result<(), Refusal>
    ensures answer { answer_of result ≡ stations_judged n }
{
    judge_between(1, 1024, n, Refusal::StationCount)
}

// Refusal 2: the line list has an odd length or over 16,384 numbers.
#[tactic(auto, unfolding(crate::specs::Limits::length_judged))]
pub fn judge_length(list: LineList, lines: &[u16]) -> Result<(), Refusal>
    ensures answer { answer_of result ≡ length_judged (list_number list) lines.now }
{
    if lines.len() % 2 == 1 || MOST_NUMBERS < lines.len() {
        return Err(Refusal::LineCount(list));
    }
    Ok(())
}

// Refusal 3: k is not 1 to 16.
#[tactic(auto, unfolding(crate::specs::Limits::level_judged))]
pub fn judge_level(level: Level) -> Result<(), Refusal>
    ensures answer { answer_of result ≡ level_judged level.0 }
{
    judge_between(1, 16, level.0, Refusal::LevelRange)
}

// Refusal 5: a lent buffer is shorter than needed.
#[tactic(auto, unfolding(crate::specs::Limits::room_judged))]
pub fn judge_room(short: bool) -> Result<(), Refusal>
    ensures answer { answer_of result ≡ room_judged short }
{
    if short {
        return Err(Refusal::Room);
    }
    Ok(())
}

// Refusal 12: the weak-spot level is not 1 to 3.
#[tactic(auto, unfolding(crate::specs::Limits::weak_level_judged))]
pub fn judge_weak_level(level: Level) -> Result<(), Refusal>
    ensures answer { answer_of result ≡ weak_level_judged level.0 }
{
    judge_between(1, 3, level.0, Refusal::WeakLevel)
}

// Whether the room for a plan, ranks and orders, is too short. Dividing instead of multiplying keeps any level and n from wrapping.
pub fn is_plan_short(n: usize, level: Level, lines: &[u16], ranks: usize, orders: usize) -> bool
    ensures short { result ≡ plan_short n level.0 lines.now ranks orders }
{
    if ranks < lines.len() / 2 {
        return true;
    }
    if n == 0 {
        return false;
    }
    orders / n < level.0
}
