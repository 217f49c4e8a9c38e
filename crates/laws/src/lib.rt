// The laws of whole commands and of the items of a stream, stated in specs/Laws.antt and proved over the definitions: proofs/RoundTrip.antt, Shortest.antt,
// Places.antt, Room.antt, Partition.antt, and Items.antt, which has them on the calls themselves.
#![tactic(auto)]
