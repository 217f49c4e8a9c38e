// Tables that are proved by computing: the sheet of set values of document 01 (specs/Sheet.antt), worked examples (specs/Examples.antt), and wrong
// answers that no call gives (specs/Wrong.antt).
#![tactic(auto)]
