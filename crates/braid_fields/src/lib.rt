//! The fields of a head: what a field line and a status line are, which fields a head is looked at for, and the table
//! of faults that turns them into the plan of an update or a patch.
//!
//! `read_field` gives the name and the value of a line, and `HeadFields` keeps the values of the known fields (after
//! RFC 9112, section 5, and RFC 9110, section 5). `plan_head`, `plan_put` and `plan_patch` answer the identifier, the
//! parents and the content that has to follow, or the first reason against them: exactly what the rows of the table
//! say in their order. `laws` says what each word of the table means, that every plan keeps to its limits, and
//! that the heads of a canonical spelling plan its update.
//!
//! Whether bytes are the address of a server or a path is told here too.
//!
//! Nothing here knows lines of a stream, places or contents: what stands where is for the crate above.
#![tactic(auto)]

mod checks;
mod content;
mod field;
mod head;
mod joined;
mod known_name;
pub mod laws;
mod length;
mod line;
mod names;
mod parts;
mod patch;
mod place;
mod plan;
mod range;
mod reason;
mod status;

pub use checks::{is_encoded, is_other_merge_type};
pub use field::{read_field, trimmed};
pub use head::{plan_head, plan_put};
pub use length::are_length_digits;
pub use line::is_empty_line;
pub use names::list_ids;
pub use parts::{HeadFields, Parts};
pub use patch::plan_patch;
pub use place::{is_path, is_server};
pub use plan::{Asks, PatchPlan, Plan, PlanFault};
pub use reason::Reason;
pub use status::{is_good_status, is_status};

#[cfg(test)]
mod row_tests;
#[cfg(test)]
mod tests;
