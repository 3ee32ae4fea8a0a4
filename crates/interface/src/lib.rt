// The maintainer's demands (docs/RULES.md, section 13) of the C interface, in bytes, proved of what its calls are said to do.
#![tactic(auto)]
