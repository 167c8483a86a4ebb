// The window recursion of document 000: definitions in specs/Windows.antt, and laws in proofs/. Nothing is assumed.

#![tactic(auto)]
