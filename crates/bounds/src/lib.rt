// The bounds of refusals 9 and 12, and those of a span, as tables of rows with one law over each. No code.
#![tactic(auto)]
