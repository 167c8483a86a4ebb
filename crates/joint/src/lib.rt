// Two sheets as one on the same clock (request F-7): which join, the joint sheet, and what its figures are by those of the two:
// definitions in specs/, and laws in proofs/. Nothing is assumed.

#![tactic(auto)]
