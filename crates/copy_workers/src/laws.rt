//! Laws of copies, and of jobs that came back once.

ghost use Rattle.copy_workers.specs.ComeBack.{AsManyComeBack, IdsComeBack, EachJobComesBack};
ghost use Rattle.copy_workers.specs.ComeBack.{NoStrangerComesBack, PoolsAreKept};
ghost use Rattle.copy_workers.specs.Laws.{SettledWordsStood, CopiesAreWhole, CopiesAreExact};

/// Once its receipt is settled, each word of a copy is known to have stood in its place, between
/// note and finish.
pub fn settled_words_stood()
    ensures { SettledWordsStood }
{}

/// The receipt of a copy stands for the loads of its words alone.
pub fn copies_are_whole()
    ensures { CopiesAreWhole }
{}

/// Its words and its finish say all of a copy that its job does not say.
pub fn copies_are_exact()
    ensures { CopiesAreExact }
{}

/// No result is lost, and none is doubled.
pub fn as_many_come_back()
    ensures { AsManyComeBack }
{}

/// Each id comes back as often as it was offered.
pub fn ids_come_back()
    ensures { IdsComeBack }
{}

/// Each job has its copy among the results.
pub fn each_job_comes_back()
    ensures { EachJobComesBack }
{}

/// Each result is the copy of a job.
pub fn no_stranger_comes_back()
    ensures { NoStrangerComesBack }
{}

/// The receipts of copies are of the pool of their jobs.
pub fn pools_are_kept()
    ensures { PoolsAreKept }
{}
