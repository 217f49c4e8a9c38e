// The laws of a listing (specs/Listings.antt), over its definition: no item is left out (proofs/Whole.antt), and how long it gets (proofs/Lengths.antt).
#![tactic(auto)]
