//! Results of tests, which are scenarios and policies, in the Test Anything Protocol and in JUnit's XML.
//!
//! `cli_tests` calls it: `tap_point(alloc, 1, &trial)` returns the lines about the first result.
#![tactic(auto)]

mod junit;
mod tap;
mod test_result;
mod theorems;
mod xml;

pub use junit::junit_document;
pub use tap::{printed_path, tap_plan, tap_point};
pub use test_result::{TestResult, TimedResult, failures};
pub use theorems::texts_stay_inside;
