// Nothing runs here: the crate holds the demands, each stated and proved over the definitions that the contracts cite and then over the
// contracts themselves (proofs/), and the worked lines of the paper (specs/).
#![tactic(auto)]
