// The test of "A sound store" over an abstract store: specs/ has a test for each clause, proofs/ that it says just that clause. No code.
#![tactic(auto)]
