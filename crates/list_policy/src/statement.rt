//! The statement of a line: what it demands, and the paths of components.
ghost use Rattle.std.specs.Prelude.{◌≡◌};
ghost use Rattle.std.specs.Option.{option_copied, option_map};
ghost use Rattle.std.specs.Result.{result_map_both};
ghost use Rattle.list_policy.specs.Statement.{budget_of, demand_of, flaw_at, isolated, label_of, limit_of, path_at, path_in, range_of, range_words, range_words_at, reach_of, statement_at, statement_of, target_at, target_of, verb_of};

use crate::cuts::{before_end, cut, text_at};
use crate::demand::{BudgetLimit, Demand, LabelRange};
use crate::fault::PolicyFlaw;
use list_labels::ClientLabel;
use list_reach::trimmed;
use text_codec::skip_bytes;
use trade_base::{read_amount, read_number};

// The text between components and their budget.
const AT_MOST: &[u8] = b" at most ";

// The text between components and the word for a label.
pub(crate) const WITH: &[u8] = b" with ";

/// Paths of components, with the number of bytes before them in a line.
#[derive(Clone, Copy)]
pub(crate) struct PolicyPath<'a> {
    pub(crate) text: &'a [u8],
    pub(crate) at: usize,
}

/// What a line demands, and the paths of components: those before the arrow or all, and those after the arrow.
#[derive(Drop)]
pub(crate) struct Statement<'a> {
    pub(crate) demand: Demand,
    pub(crate) from: PolicyPath<'a>,
    pub(crate) to: Option<PolicyPath<'a>>,
}

// The first word of a line with an arrow.
#[derive(Clone, Copy)]
enum Verb {
    Deny,
    Allow,
    Only,
}

/// Returns the statement of a line, by its text before a quote and the text after the quote, if there is one. Errors in order: no
/// form, no arrow, text that doesn't belong there, a label or a budget that is none.
pub(crate) fn statement_of<'a>(
    head: &'a [u8],
    quoted: Option<&'a [u8]>,
) -> Result<Statement<'a>, PolicyFlaw<'a>>
    ensures { result_map_both statement_at flaw_at result
        ≡ statement_of head.now (option_copied quoted.entry) }
{
    let (word, paths) = cut(b' ', head);
    if word == b"isolate".as_slice() {
        return isolated(head, paths, quoted);
    }
    match verb_of(word) {
        Some(verb) => reach_of(head, verb, paths, quoted),
        None => budget_of(head, quoted),
    }
}

// The verb that a word is, if it is one.
fn verb_of(word: &[u8]) -> Option<Verb>
    ensures { result ≡ verb_of word.now }
{
    if word == b"deny".as_slice() {
        Some(Verb::Deny)
    } else if word == b"allow".as_slice() {
        Some(Verb::Allow)
    } else if word == b"only".as_slice() {
        Some(Verb::Only)
    } else {
        None
    }
}

// The statement of a verb, with the text after it.
fn reach_of<'a>(
    head: &'a [u8],
    verb: Verb,
    paths: Option<&'a [u8]>,
    quoted: Option<&'a [u8]>,
) -> Result<Statement<'a>, PolicyFlaw<'a>>
    ensures { result_map_both statement_at flaw_at result
        ≡ reach_of head.now verb (option_copied paths.entry) (option_copied quoted.entry) }
{
    let Some(paths) = paths else {
        return Err(PolicyFlaw::NoDemand);
    };
    let (from, Some(to)) = cut(b'>', paths) else {
        return Err(PolicyFlaw::NoArrow);
    };
    let Some(from) = before_end(b"-", from) else {
        return Err(PolicyFlaw::NoArrow);
    };
    let target = target_of(to, quoted)?;
    Ok(Statement {
        demand: demand_of(verb, target.range),
        from: path_in(head, paths, from),
        to: Some(path_in(head, to, target.paths)),
    })
}

// Paths that begin where a last part of a line does.
fn path_in<'a>(head: &[u8], last: &[u8], text: &'a [u8]) -> PolicyPath<'a>
    ensures { path_at result ≡ path_in head.now last.now text.now }
{
    PolicyPath {
        text,
        at: head.len().saturating_sub(last.len()),
    }
}

// The statement that components are isolated, with the text after the first word.
fn isolated<'a>(
    head: &'a [u8],
    paths: Option<&'a [u8]>,
    quoted: Option<&'a [u8]>,
) -> Result<Statement<'a>, PolicyFlaw<'a>>
    ensures { result_map_both statement_at flaw_at result
        ≡ isolated head.now (option_copied paths.entry) (option_copied quoted.entry) }
{
    match (paths, quoted) {
        (None, _) => Err(PolicyFlaw::NoDemand),
        (Some(_), Some(_)) => Err(PolicyFlaw::TooMuch),
        (Some(paths), None) => Ok(Statement {
            demand: Demand::Isolate,
            from: path_in(head, paths, paths),
            to: None,
        }),
    }
}

// The statement that components have at most a budget.
fn budget_of<'a>(head: &'a [u8], quoted: Option<&'a [u8]>) -> Result<Statement<'a>, PolicyFlaw<'a>>
    ensures { result_map_both statement_at flaw_at result
        ≡ budget_of head.now (option_copied quoted.entry) }
{
    let Some(at) = text_at(AT_MOST, head) else {
        return Err(PolicyFlaw::NoDemand);
    };
    match (
        quoted,
        limit_of(skip_bytes(skip_bytes(head, at), AT_MOST.len())),
    ) {
        (Some(_), _) => Err(PolicyFlaw::TooMuch),
        (None, None) => Err(PolicyFlaw::BadBudget),
        (None, Some(limit)) => Ok(Statement {
            demand: Demand::AtMost(limit),
            from: PolicyPath {
                text: &head[..at],
                at: 0,
            },
            to: None,
        }),
    }
}

// The limit of two amounts, which a comma separates.
fn limit_of(amounts: &[u8]) -> Option<BudgetLimit>
    ensures { result ≡ limit_of amounts.now }
{
    let (ram, Some(caps)) = cut(b',', amounts) else {
        return None;
    };
    let ram = read_amount(trimmed(ram))?;
    let caps = read_number(trimmed(caps))?;
    Some(BudgetLimit { ram, caps })
}

// The paths of servers, and the labels that a line is about.
#[derive(Drop)]
struct StatementTarget<'a> {
    paths: &'a [u8],
    range: LabelRange,
}

// The text after an arrow: paths, and then, if there is a quote, the labels that the line is about. A label without quotes is none.
fn target_of<'a>(
    to: &'a [u8],
    quoted: Option<&'a [u8]>,
) -> Result<StatementTarget<'a>, PolicyFlaw<'a>>
    ensures { result_map_both target_at flaw_at result ≡ target_of to.now (option_copied quoted.entry) }
{
    let Some(quoted) = quoted else {
        if text_at(WITH, to).is_some() {
            return Err(PolicyFlaw::BadLabel);
        }
        return Ok(StatementTarget {
            paths: to,
            range: LabelRange::All,
        });
    };
    let Some(words) = range_words(to) else {
        return Err(PolicyFlaw::TooMuch);
    };
    let label = label_of(quoted)?;
    Ok(StatementTarget {
        paths: words.paths,
        range: range_of(words.word, label),
    })
}

// The word before a label in quotes.
#[derive(Clone, Copy)]
enum LabelWord {
    Label,
    Prefix,
    Suffix,
}

// The paths before ` with` and a word for labels.
#[derive(Clone, Copy)]
struct RangeWords<'a> {
    paths: &'a [u8],
    word: LabelWord,
}

// The paths and the word of a text that ends with ` with` and a word for labels.
fn range_words(to: &[u8]) -> Option<RangeWords<'_>>
    ensures { option_map range_words_at result ≡ range_words to.now }
{
    if let Some(paths) = before_end(b" with label", to) {
        let word = LabelWord::Label;
        return Some(RangeWords { paths, word });
    }
    if let Some(paths) = before_end(b" with prefix", to) {
        let word = LabelWord::Prefix;
        return Some(RangeWords { paths, word });
    }
    let paths = before_end(b" with suffix", to)?;
    let word = LabelWord::Suffix;
    Some(RangeWords { paths, word })
}

// The labels that a word and a label after it denote.
fn range_of(word: LabelWord, label: ClientLabel) -> LabelRange
    ensures { result ≡ range_of word label }
{
    match word {
        LabelWord::Label => LabelRange::Exactly(label),
        LabelWord::Prefix => LabelRange::Prefix(label),
        LabelWord::Suffix => LabelRange::Suffix(label),
    }
}

// The label up to a second quote, if only a comment follows.
fn label_of<'a>(quoted: &'a [u8]) -> Result<ClientLabel, PolicyFlaw<'a>>
    ensures { result_map_both (λ label. label) flaw_at result ≡ label_of quoted.now }
{
    let (text, Some(behind)) = cut(b'"', quoted) else {
        return Err(PolicyFlaw::BadLabel);
    };
    let (behind, _) = cut(b'#', behind);
    if !trimmed(behind).is_empty() {
        return Err(PolicyFlaw::BadLabel);
    }
    match ClientLabel::read(text) {
        Some(label) => Ok(label),
        None => Err(PolicyFlaw::BadLabel),
    }
}

// The demand of a verb on the labels of a range.
fn demand_of(verb: Verb, range: LabelRange) -> Demand
    ensures { result ≡ demand_of verb range }
{
    match verb {
        Verb::Deny => Demand::Deny(range),
        Verb::Allow => Demand::Allow(range),
        Verb::Only => Demand::Only(range),
    }
}
