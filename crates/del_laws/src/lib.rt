// The laws of the DEL mode, over the definitions. Stated in specs/Padding.antt: after KI 1 a stream reads as it does without its DELs; proved in
// proofs/Moving.antt, Places.antt and Padding.antt. Stated in specs/Base.antt, BaseItems.antt and BaseWriting.antt: where 127 is data nothing has changed in reading and writing;
// proved in the files of these names in proofs/.
#![tactic(auto)]
