// The user's demands about lists of calls: specs/ states them over desk and page bytes. No code.
#![tactic(auto)]
