// The marked figures of the scope document, as a table of rows with one law over all of them. No code.
#![tactic(auto)]
