// The situations and the maintainer's demands (docs/RULES.md, sections 14 and 13), proved of the definitions.
#![tactic(auto)]
