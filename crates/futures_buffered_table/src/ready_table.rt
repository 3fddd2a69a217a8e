//! The list of ready slots and the machine of its steps, under one name.
pub use crate::closing::Closed;
pub use crate::laws::{rule_empties_row, rule_loses_no_mark, rule_places_slots};
pub use crate::ready_list::{PollSeat, ReadyList, WakeSeat};
pub use crate::rule::{FirstWaker, IntoPoller, ListKey, NewWaker, NewWakerStep, RowRule, SeatStep};
pub use crate::schedule::steps;
pub use crate::step::{Step, StepFault, StepReply, WAKE_SEATS};
pub use crate::step_machine::StepMachine;
pub use crate::taking::{BeforeEmpty, StepsMade};
pub use crate::view::{AtomicStep, Phase, Role, View};
