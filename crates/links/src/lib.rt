// Lemmas on the pairs that rising representatives ask for: what lies under a node, how the pairs
// change as one representative comes or goes, how many there are, and what a level search over them
// answers. There is no code here.
#![tactic(auto)]
