// No code: proofs/Claims.antt is the page of what is proved, over all the crates below.

#![tactic(auto)]
