// The output lines of one row: the rules.
#![tactic(auto)]
