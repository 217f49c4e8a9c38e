// The laws of the pixel calls, one after another: stated in specs/Records.antt and specs/Lending.antt, proved over the definitions in proofs/Staying.antt and proofs/Lending.antt.
#![tactic(auto)]
