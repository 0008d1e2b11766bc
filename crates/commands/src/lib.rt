//! The commands of `qadhmuleh`: each takes texts that were read, and answers what is to be printed. What is asked of a
//! policy is answered by the crates below, whose contracts fix it; how it is printed is tested.
#![tactic(auto)]

pub use crate::answer::{Answer, Format, Source};
pub use crate::asked::ask;
pub use crate::captured::scan_packets;
pub use crate::checked::check;
pub use crate::explained::why;
pub use crate::forms::{Form, check_form, convert, reformat};
pub use crate::listed::list;

mod answer;
mod asked;
mod captured;
mod checked;
mod compiled;
mod explained;
mod forms;
mod json;
mod laws;
mod listed;
mod loaded;
mod names;
mod page;
mod problem;
mod refused;
mod settled;
