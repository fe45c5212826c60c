//! The results of tests.
ghost use Rattle.std.specs.Prelude.{◌≡◌, length};
ghost use Rattle.view_test_report.specs.Trials.{failed_among, total_milliseconds};

/// The result of a test: of a scenario that was run, or of a start list that was checked against its policy.
#[derive(Drop)]
pub struct TestResult {
    /// The name of the test: the path of the scenario, or the paths of the list and the policy.
    pub name: String,
    /// Whether all of it was as expected.
    pub passed: bool,
    /// The report on the run: lines, each with its newline.
    pub told: Vec<u8>,
}

/// The result of a test, and the time that the test took.
#[derive(Drop)]
pub struct TimedResult {
    /// The result.
    pub result: TestResult,
    /// The time from the start of the test to its end, in milliseconds.
    pub milliseconds: u64,
}

/// Returns how many of these trials failed, for the exit status.
pub fn failures(trials: &[TimedResult]) -> usize
    ensures { result ≡ length (failed_among trials.now) }
{
    trials.iter().filter(|trial| !trial.result.passed).count()
}

/// Returns the sum of the times of these trials in milliseconds, at most the largest number of 64 bits.
pub(crate) fn total_milliseconds(trials: &[TimedResult]) -> u64
    ensures { result ≡ total_milliseconds trials.now }
{
    let mut total = 0u64;
    for trial in trials {
        total = total.saturating_add(trial.milliseconds);
    }
    total
}
