// Nothing runs here: the proof tools stand in specs/.
#![tactic(auto)]
