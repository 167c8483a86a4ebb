// Modified segments (request F-13): what stores add to the costs of a schedule, the least total with them, and the schedule that has it:
// definitions in specs/, and laws in proofs/. Nothing is assumed.

#![tactic(auto)]
