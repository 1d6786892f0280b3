// Runs of jobs that follow one another, each on a store that goes on from the image of the last.
ghost use Rattle.job_store.specs.RunRounds.{RunsGoOn, RunsMakeRounds};

/// The law that a run of a job makes a round of a chain (`IsChain` of rounds), with its report's
/// clocks, base and histories.
pub fn runs_make_rounds()
    ensures { RunsMakeRounds }
{}

/// The law that a store which goes on from the image of a run opens with the clock and the contents
/// with which that run's report ends.
pub fn runs_go_on()
    ensures { RunsGoOn }
{}
