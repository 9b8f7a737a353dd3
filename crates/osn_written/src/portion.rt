//! A part of the days that a month or a year means, such as the first third of them.
ghost use Rattle.std.specs.Prelude.{◌≡◌, ◌+◌, ◌-◌, ◌/◌, ◌≤◌};
ghost use Rattle.osn_written.specs.Portion as spec;

use osn_days::Day;
use osn_territory::Run;

/// A part of the days of a month or a year.
#[derive(Clone, Copy, Debug, PartialEq, Eq)]
pub enum Portion {
    FirstThird,
    MiddleThird,
    LastThird,
    FirstHalf,
    SecondHalf,
}

impl Portion {
    /// Returns its words, such as `the first third of`.
    pub(crate) fn words(self) -> &'static str
        ensures { result.now ≡ spec.portion_words self }
    {
        match self {
            Portion::FirstThird => "the first third of",
            Portion::MiddleThird => "the middle third of",
            Portion::LastThird => "the last third of",
            Portion::FirstHalf => "the first half of",
            Portion::SecondHalf => "the second half of",
        }
    }
}

/// Returns by how many days a part of a run begins after it, and by how many it ends before it.
fn left_out(portion: Portion, gap: u32) -> (u32, u32)
    requires { gap ≤ 4000000 }
    ensures value { result ≡ spec.left_out portion gap }
    ensures first { result.0 ≤ gap }
    ensures last { result.1 ≤ gap }
{
    match portion {
        Portion::FirstThird => (0, gap - gap / 3),
        Portion::MiddleThird => ((gap + 1) / 3, (gap + 1) / 3),
        Portion::LastThird => (gap - gap / 3, 0),
        Portion::FirstHalf => (0, gap - gap / 2),
        Portion::SecondHalf => (gap - gap / 2, 0),
    }
}

/// Returns the part of a run. A third or a half that ends within a day has the whole day.
pub(crate) fn part_of_run(portion: Portion, run: Run) -> Run
    requires { run.first ≤ run.last }
    ensures { result ≡ spec.part_of_run portion run }
{
    let (before, after) = left_out(portion, run.last.number() - run.first.number());
    Run {
        first: Day::on_line(i64::from(run.first.number()) + i64::from(before)),
        last: Day::on_line(i64::from(run.last.number()) - i64::from(after)),
    }
}
