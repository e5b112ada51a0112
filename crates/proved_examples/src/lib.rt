// The worked examples of document 01, P1 to P14: one table in specs/Examples.antt, with a single proof, in proofs/ExamplesHold.antt.
#![tactic(auto)]
