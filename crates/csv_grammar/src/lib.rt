// The grammar of a spreadsheet's file, and the order in which its lines are taken: definitions and laws, no code.
#![tactic(auto)]
