// The front door: every public call on bytes, a module for each family. None relies on a caller's check: each refuses for itself, and a
// refused call changes nothing and gives zeros: its answer is the refusal alone, and what is given beside it (`RowFigures::given` and the
// like, in definitions `value_or_zero`) is zero. The definition of each answer stands in specs/ under the family's name, what holds of the
// answers beside it; nothing is assumed.
#![tactic(auto)]

pub mod curves;
pub mod figuring;
pub mod recording;
pub mod schedules;
pub mod sheets;
pub mod texts;
