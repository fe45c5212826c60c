//! The start lists that `diff` compares, with their files.
ghost use Rattle.std.specs.Prelude.{◌≡◌};

use list_diff::BreachChange;
use list_parser::StartList;

/// A start list with the path of its file.
#[derive(Clone, Copy)]
pub(crate) struct ListFile<'a> {
    /// The path of the file.
    pub(crate) path: &'a str,
    /// The start list.
    pub(crate) list: &'a StartList,
}

/// Two start lists that are compared.
#[derive(Clone, Copy)]
pub(crate) struct ListPair<'a> {
    /// The list before the change.
    pub(crate) before: ListFile<'a>,
    /// The list after the change.
    pub(crate) after: ListFile<'a>,
}

/// Two start lists that are compared, with the breaches of a policy that one of them alone has.
#[derive(Clone, Copy)]
pub(crate) struct JudgedPair<'a> {
    /// The lists.
    pub(crate) lists: ListPair<'a>,
    /// The breaches that one list alone has.
    pub(crate) breaches: &'a [BreachChange<'a>],
}

impl<'a> JudgedPair<'a> {
    /// Returns two lists with these breaches.
    pub(crate) fn new(lists: ListPair<'a>, breaches: &'a [BreachChange<'a>]) -> JudgedPair<'a>
        ensures before { result.lists.before.list.now ≡ lists.entry.before.list.now }
        ensures after { result.lists.after.list.now ≡ lists.entry.after.list.now }
        ensures breaches { result.breaches.now ≡ breaches.now }
    {
        JudgedPair { lists, breaches }
    }
}
