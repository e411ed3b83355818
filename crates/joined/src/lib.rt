// Whether two stations are joined when others are taken away.
#![tactic(auto)]

ghost use Rattle.std.specs.Prelude.{◌≡◌, ◌||◌, List, ℕ, ◌<◌, ◌≤◌, leb, length};
ghost use Rattle.kinds.specs.Answers.{Answer.given, answer_of, refuse_if, ◌and_then◌};
ghost use Rattle.kinds.specs.Refusals.{asked_number};
ghost use Rattle.network.specs.Judging.{list_judged};
ghost use Rattle.joined.specs.Asking.{away_judged, all_away_judged, asked_judged, joined_answer};
ghost use Rattle.pieces.specs.Away.{is_away, is_gone, Unmarked, Gone, Rising};
ghost use Rattle.pieces.specs.Pieces.{one_piece};

use judging::judge;
use kinds::{Asked, Position, Refusal, Station};
use network::SoundNetwork;
use pieces::find_pieces;

// Marks the stations of the taken-away list, where none is marked yet.
fn take_away(away: &[u16], gone: &mut [bool])
    requires { Rising (length gone.old) away.now × Unmarked gone.old }
    ensures gone { Gone away.now gone.new }
{
    for v in away {
        gone[*v as usize] = true;
    }
}

// Refusal 10 at a position: the number is n or more, or not above the one before it.
#[tactic(auto, unfolding(crate::specs::Asking::away_judged))]
fn judge_away_at(n: usize, away: &[u16], position: Position) -> Result<(), Refusal>
    requires { position.0 < length away.now }
    ensures answer { answer_of result ≡ away_judged n away.now position.0 }
{
    let j = position.0 as usize;
    if n <= away[j] as usize || (0 < j && away[j] <= away[j - 1]) {
        return Err(Refusal::TakenAway(position));
    }
    Ok(())
}

// Refusal 10 at the first position of the list. A list that rises below n so far is no longer than n, so the position fits.
fn judge_away(n: usize, away: &[u16]) -> Result<(), Refusal>
    requires { n ≤ 1024 }
    ensures answer { answer_of result ≡ all_away_judged n away.now }
{
    for j in 0..away.len() {
        judge_away_at(n, away, Position(j as u16))?;
    }
    Ok(())
}

// Refusal 11: an asked station is n or more, or marked as taken away.
fn judge_asked(n: usize, gone: &[bool], asked: Asked, station: Station) -> Result<(), Refusal>
    requires { length gone.now ≡ n }
    ensures answer { answer_of result ≡ refuse_if (leb n station.0 || is_gone gone.now station.0) 11 (asked_number asked) 0 }
{
    let v = station.0 as usize;
    if n <= v || gone[v] {
        return Err(Refusal::AskedStation(asked));
    }
    Ok(())
}

// Refusal 11, of the first asked station and then of the second.
fn judge_both(n: usize, gone: &[bool], one: Station, two: Station) -> Result<(), Refusal>
    requires { length gone.now ≡ n }
    ensures answer { (away : List ℕ) → Gone away gone.now → answer_of result ≡ (asked_judged n away 0 one.0 and_then asked_judged n away 1 two.0) }
{
    judge_asked(n, gone, Asked::First, one)?;
    judge_asked(n, gone, Asked::Second, two)
}

// The judge of a network and of a taken-away list: 1, 2, lines, 10.
fn judge_network(n: usize, lines: &[u16], away: &[u16]) -> Result<(), Refusal>
    ensures answer { answer_of result ≡ (list_judged 0 n lines.now and_then all_away_judged n away.now) }
{
    judge(n, lines)?;
    judge_away(n, away)
}

// Whether two stations that remain are of one piece, with a table of n entries to work in.
fn is_one_piece(
    network: &SoundNetwork,
    gone: &[bool],
    one: Station,
    two: Station,
    pieces: &mut [u16],
) -> bool
    requires { (length gone.now ≡ network.now.n) × (length pieces.old ≡ network.now.n) × (one.0 < network.now.n) × (two.0 < network.now.n) }
    ensures piece { (away : List ℕ) → Gone away gone.now → result ≡ one_piece network.now.n network.now.lines.now (is_away away) one.0 two.0 }
{
    find_pieces(network, gone, pieces);
    pieces[one.0 as usize] == pieces[two.0 as usize]
}

// The answer over a network and a taken-away list that are in order: 11, then whether the two are of one piece.
fn joined_among(
    network: &SoundNetwork,
    away: &[u16],
    one: Station,
    two: Station,
    gone: &mut [bool],
    pieces: &mut [u16],
) -> Result<bool, Refusal>
    requires { Rising network.now.n away.now × (length gone.old ≡ network.now.n) × Unmarked gone.old × (length pieces.old ≡ network.now.n) }
    ensures answer { answer_of result ≡ (asked_judged network.now.n away.now 0 one.0 and_then asked_judged network.now.n away.now 1 two.0 and_then given (one_piece network.now.n network.now.lines.now (is_away away.now) one.0 two.0)) }
{
    take_away(away, gone);
    judge_both(network.n, gone, one, two)?;
    Ok(is_one_piece(network, gone, one, two, pieces))
}

// The answer, with room for 1,024 marks, none of them set, and as many entries: 1, 2, lines, 10, and then the rest.
fn joined_within(
    n: usize,
    lines: &[u16],
    away: &[u16],
    one: Station,
    two: Station,
    gone: &mut [bool],
    pieces: &mut [u16],
) -> Result<bool, Refusal>
    requires { (length gone.old ≡ 1024) × Unmarked gone.old × (length pieces.old ≡ 1024) }
    ensures answer { answer_of result ≡ joined_answer n lines.now away.now one.0 two.0 }
{
    judge_network(n, lines, away)?;
    let network = SoundNetwork { n, lines };
    joined_among(&network, away, one, two, &mut gone[..n], &mut pieces[..n])
}

// Whether two stations are joined when the stations of `away` are taken away.
pub fn joined(
    n: usize,
    lines: &[u16],
    away: &[u16],
    one: Station,
    two: Station,
) -> Result<bool, Refusal>
    ensures answer { answer_of result ≡ joined_answer n lines.now away.now one.0 two.0 }
{
    let mut gone = [false; 1024];
    let mut pieces = [0u16; 1024];
    joined_within(n, lines, away, one, two, &mut gone, &mut pieces)
}
