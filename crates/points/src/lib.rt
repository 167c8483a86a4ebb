// Every operating point of a run and the lines that bound every schedule: definitions in specs/, and laws in proofs/. Nothing is assumed.

#![tactic(auto)]
