//! What holds of the frames by which a report is told.

ghost use Rattle.pair_report.specs.Laws.{AcceptedIsTold, MirrorsAreMeant, FlowsAreMeant};

use mirror_pools::laws::mirrors_are_meaning;

/// Of lawful records, those of a side that has failed too, the frames that a report is told by are
/// those that their story accepts.
pub fn accepted_is_told()
    ensures { AcceptedIsTold }
{}

/// The mirrors and the pipes of a report are what its frames mean for each rid.
pub fn files_and_pipes_are_meant()
    ensures mirrors { MirrorsAreMeant }
    ensures pipes { FlowsAreMeant }
{
    mirrors_are_meaning();
}
