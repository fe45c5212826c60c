//! The findings of a start list at their places.
use crate::reports::Spot;
use list_review::{Finding, ListPart};
use std::fmt;

/// Returns the place of a finding in the start list of a path: a byte of its text if one is known, else the whole file.
pub fn finding_spot<'a>(path: &'a str, finding: &Finding) -> Spot<'a> {
    match &finding.part {
        ListPart::Text(line, column) => Spot::byte(path, *line as u64, *column),
        _ => Spot::file(path),
    }
}

/// The message of a finding, as it follows the finding's place.
#[derive(Clone, Copy)]
pub struct FindingMessage<'a>(pub &'a Finding);

impl fmt::Display for FindingMessage<'_> {
    fn fmt<W: fmt::Write>(&self, f: &mut fmt::Formatter<W>) -> fmt::Result {
        let finding = self.0;
        match &finding.part {
            ListPart::Text(_, _) => write!(f, "{}", finding.remark),
            _ => write!(f, "{finding}"),
        }
    }
}
