//! What holds of all runs, whatever the code.
ghost use Rattle.suite_run.specs.Laws.{LinesLeadToSoundWorlds, RefusedLinesAreAsBlank, RefusedLinesChangeNothing};

/// A refused line changes nothing but its own block.
pub fn refused_lines_change_nothing()
    ensures world { RefusedLinesChangeNothing }
    ensures blocks { RefusedLinesAreAsBlank }
{}

/// Whatever the lines, the world after them is sound: each map of an agent is what belongs on its stream at the map's
/// revision, what waits leads on from there, and where the three revisions of a node are one, what its agent holds judges
/// as the policies of that revision.
pub fn lines_lead_to_sound_worlds()
    ensures { LinesLeadToSoundWorlds }
{
    policy_reader::what_is_read_is_whole();
    run_machine::every_list_of_lines_leads_to_a_sound_world();
}
