// The starred worked points, proved: the table is in `rules`, and to compute those of its points that have a long run takes longer than all the laws there. No
// code.
#![tactic(auto)]
