// The definitions, compared with an independent model of the rules (docs/RULES.md) on small cases.
#![tactic(auto)]
