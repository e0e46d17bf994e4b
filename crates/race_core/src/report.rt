//! What a race found.
ghost use Rattle.std.specs.Prelude.{◌≡◌, ◌^◌, ◌<◌, ◌≤◌, true, IfOk, sum_by};
ghost use Rattle.claim_core.specs.Hand.{IsWholeHand, seen_size};
ghost use Rattle.claim_core.specs.Shares.{all_shares};
ghost use Rattle.grow_core.specs.Vector.{IsHandOf, base_of};
ghost use Rattle.race_core.specs.Race.{sum_below, IsTeam, team_of, verdict_of};

use crate::history::{history_of, is_legal, sort_wins};
use crate::team::Win;
use grow_core::{Hand, Shared, laws};
use quiet_core::Quiet;
use std::alloc::{AllocError, Global};
use std::fmt;

/// The findings of a race.
#[derive(Clone, Copy, Debug, PartialEq, Eq)]
pub struct RaceReport {
    /// The size of the vector at the end.
    pub size: u64,
    /// The sum of the values that were appended.
    pub sum: u64,
    /// Whether the workers' wins are a history of the sequential vector.
    pub legal: bool,
}

fn verdict(legal: bool) -> &'static str
    ensures { result.now ≡ verdict_of legal }
{
    if legal { "legal" } else { "not legal" }
}

impl fmt::Display for RaceReport {
    ghost use Rattle.std.specs.Prelude.{Some};
    ghost use Rattle.race_core.specs.Race.{report_text};

    ghost output = { λ report. Some (report_text report) };

    fn fmt<W: fmt::Write>(&self, f: &mut fmt::Formatter<W>) -> fmt::Result {
        write!(
            f,
            "size {}\nsum {}\n{}\n",
            self.size,
            self.sum,
            verdict(self.legal)
        )
    }
}

// The sum of the values that were won.
#[tactic(auto, using(std::proofs::lemmas::List::Sums::sum_by_more_le))]
fn sum_of(wins: &[Win]) -> u64
    requires { sum_by (λ win. win.value) wins.now < 2 ^ 64 }
    ensures { result ≡ sum_by (λ win. win.value) wins.now }
{
    let mut sum = 0;
    for win in wins {
        sum += win.value;
    }
    sum
}

// The size of the vector, which is closed and dropped.
fn closed_size(vector: Shared<u64>, hand: Hand<u64>) -> u64
    requires ours { IsHandOf vector hand }
    requires whole { IsWholeHand hand }
    ensures { result ≡ seen_size hand }
{
    let list = Quiet::close(vector, hand);
    let size = list.len();
    drop(list);
    size
}

// The report of a team that has all values, and a hand with all shares.
pub(crate) fn report_of(
    alloc: Global,
    vector: Shared<u64>,
    hand: Hand<u64>,
    wins: Vec<Win>,
    size: u64,
) -> Result<RaceReport, AllocError>
    requires ours { IsHandOf vector hand }
    requires base { base_of vector ≡ 0 }
    requires limits { 0 < size × size ≤ 6400000 }
    requires team { IsTeam vector.word all_shares 0 size (team_of hand wins.items) }
    ensures size { IfOk result (λ report. report.size ≡ size) }
    ensures sum { IfOk result (λ report. report.sum ≡ sum_below size) }
    ensures legal { IfOk result (λ report. report.legal ≡ true) }
{
    // For the proof: a whole hand knows exactly the places that were claimed.
    hand.whole_laws();
    laws::seen_runs_are_within();
    let size = closed_size(vector, hand);
    let sum = sum_of(&wins);
    let slots = sort_wins(alloc, size, &wins)?;
    drop(wins);
    let history = history_of(alloc, &slots)?;
    drop(slots);
    let legal = is_legal(alloc, size, &history);
    drop(history);
    Ok(RaceReport {
        size,
        sum,
        legal: legal?,
    })
}
