//! The coverage of all scenarios, as lines for people.
use crate::report::{CoverageReport, PartKind, PartName};
use std::fmt;

/// Writes the name of a rule, or a script's path and a service.
impl fmt::Display for PartName {
    fn fmt<W: fmt::Write>(&self, f: &mut fmt::Formatter<W>) -> fmt::Result {
        match self {
            PartName::Rule(name) => f.write_str(name.as_str()),
            PartName::Request(path, service) => write!(f, "{} {}", path.as_str(), service.as_str()),
        }
    }
}

/// Writes lines of comments: the rules and the session requests of each start list, and then each scenario with what it meets of
/// these.
impl fmt::Display for CoverageReport {
    fn fmt<W: fmt::Write>(&self, f: &mut fmt::Formatter<W>) -> fmt::Result {
        for list in 0..self.lists.len() {
            show_kind(f, self, list, PartKind::Rule)?;
            show_kind(f, self, list, PartKind::Request)?;
        }
        for sheet in self.sheets.as_slice() {
            write!(f, "# coverage: {}:", sheet.path.as_str())?;
            let mut before = " ";
            for part in self.parts.as_slice() {
                if sheet.meets_part(part) {
                    write!(f, "{before}{}", part.name)?;
                    before = ", ";
                }
            }
            f.write_str("\n")?;
        }
        Ok(())
    }
}

// Writes how many parts of a kind a start list has and how many of them are covered, and each of these parts with the number of
// scenarios that meet it.
fn show_kind<W: fmt::Write>(
    f: &mut fmt::Formatter<W>,
    report: &CoverageReport,
    list: usize,
    kind: PartKind,
) -> fmt::Result {
    let (parts, sheets) = (report.parts.as_slice(), report.sheets.as_slice());
    let path = report.path_at(list);
    let all = parts.iter().filter(|part| part.is_of(list, kind)).count();
    let covered = parts
        .iter()
        .filter(|part| part.is_of(list, kind) && part.is_covered(sheets))
        .count();
    let verdict = match kind {
        PartKind::Rule => "rules decide a session request",
        PartKind::Request => "session requests are made",
    };
    writeln!(f, "# coverage: {path}: {covered} of {all} {verdict}")?;
    for part in parts {
        if part.is_of(list, kind) {
            write!(f, "# coverage: {path}: {}: ", part.name)?;
            match report.times_of(part) {
                0 => f.write_str("never\n")?,
                1 => f.write_str("in 1 scenario\n")?,
                times => write!(f, "in {times} scenarios\n")?,
            }
        }
    }
    Ok(())
}
