// The balance of the pixel writes, stated in specs/Balance.antt, worked in specs/Examples.antt and specs/RowEnds.antt, and proved in proofs/Theorem.antt.
#![tactic(auto)]
