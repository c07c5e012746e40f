// A spreadsheet's file as a run of sign-ons: definitions and laws, no code.
#![tactic(auto)]
