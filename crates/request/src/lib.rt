// What an owner asks for: a network, a level and a starting station for each round; and its judge.
#![tactic(auto)]

ghost use Rattle.std.specs.Prelude.{◌≡◌, ◌<◌, ◌≤◌, length};
ghost use Rattle.kinds.specs.Answers.{answer_of};
ghost use Rattle.request.specs.Judging.{start_count_judged, start_judged, starts_judged, sizes_judged, request_judged};

use judging::judge_list;
use kinds::{Level, LineList, Position, Refusal, Round};
use limits::{judge_length, judge_level, judge_room, judge_stations};

// Refusal 4: the number of starting stations is not k.
#[tactic(auto, unfolding(crate::specs::Judging::start_count_judged))]
fn judge_start_count(level: Level, starts: &[u16]) -> Result<(), Refusal>
    ensures answer { answer_of result ≡ start_count_judged level.0 starts.now }
{
    if starts.len() == level.0 {
        return Ok(());
    }
    Err(Refusal::StartCount)
}

// Refusal 9: the starting station at a position is n or more. Its round is one more than the position.
#[tactic(auto, unfolding(crate::specs::Judging::start_judged))]
fn judge_start(n: usize, starts: &[u16], position: Position) -> Result<(), Refusal>
    requires { (position.0 < length starts.now) × (length starts.now ≤ 16) }
    ensures answer { answer_of result ≡ start_judged n starts.now position.0 }
{
    let at = position.0 as usize;
    if n <= starts[at] as usize {
        return Err(Refusal::StartOutside(Round((at + 1) as u8)));
    }
    Ok(())
}

// Each starting station, round by round.
fn judge_starts(n: usize, starts: &[u16]) -> Result<(), Refusal>
    requires { length starts.now ≤ 16 }
    ensures answer { answer_of result ≡ starts_judged n starts.now }
{
    for q in 0..starts.len() {
        judge_start(n, starts, Position(q as u16))?;
    }
    Ok(())
}

// The sizes of a request: refusals 1, 2, 3, 4 and 5.
#[tactic(auto, unfolding(crate::specs::Judging::sizes_judged))]
fn judge_sizes(
    n: usize,
    level: Level,
    lines: &[u16],
    starts: &[u16],
    short: bool,
) -> Result<(), Refusal>
    ensures answer { answer_of result ≡ sizes_judged n level.0 lines.now starts.now short }
{
    judge_stations(n)?;
    judge_length(LineList::Only, lines)?;
    judge_level(level)?;
    judge_start_count(level, starts)?;
    judge_room(short)
}

// The judge of a request: 1, 2, 3, 4, 5; then each line in list order for 6, 7, 8; then 9.
#[tactic(auto, unfolding(crate::specs::Judging::request_judged))]
pub fn judge_request(
    n: usize,
    level: Level,
    lines: &[u16],
    starts: &[u16],
    short: bool,
) -> Result<(), Refusal>
    ensures answer { answer_of result ≡ request_judged n level.0 lines.now starts.now short }
{
    judge_sizes(n, level, lines, starts, short)?;
    judge_list(LineList::Only, n, lines)?;
    judge_starts(n, starts)
}
