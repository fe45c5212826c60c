//! Labels of session requests: what a client's rules ask of them, and the rules that decide a request. `list_classes` and
//! `list_reach` call it, for example `rules_for(alloc, requests, &label)?`.
#![tactic(auto)]

mod byte_text;
mod known_labels;
mod label;
mod label_condition;
mod pattern;
mod route_steps;
mod rules;
mod session_requests;

pub use byte_text::ByteText;
pub use known_labels::add_known;
pub use label::{ClientLabel, LONGEST_GIVEN};
pub use label_condition::{LabelCondition, asked_of};
pub use pattern::{LabelSet, Pattern, Shape};
pub use route_steps::{RouteStep, route_steps_of};
pub use rules::rules_for;
pub use session_requests::SessionRequests;
