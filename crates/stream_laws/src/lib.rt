// Laws over the exported stream calls, one after the other: stated in specs/Pair.antt, proved in proofs/Pair.antt.
#![tactic(auto)]
