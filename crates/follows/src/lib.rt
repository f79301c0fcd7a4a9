// No code: what follows from the paper's definitions. They stand apart from these, so that a wrong definition is tried against the figures alone.
#![tactic(auto)]
