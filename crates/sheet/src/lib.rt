// The text of a sheet: the value that it stands for, reading it with its refusals, and its text.
// What reading and writing mean is written in specs/; nothing is assumed.
#![tactic(auto)]
