//! The members that a start list's objects have, and which of them nothing reads.
ghost use Rattle.std.specs.Prelude.{◌≡◌, map, IfOk};
ghost use Rattle.std.specs.List.{list_any};
ghost use Rattle.std.specs.Str.{bytes_eq};
ghost use Rattle.list_findings.specs.Unread.{is_comment, is_read, members_read, unread};

use crate::finding::{FindingText, Remark, StaticName};
use std::alloc::{AllocError, Global};
use text_near_words::nearest;

/// The members that are read of each entry.
const ENTRY_MEMBERS: [&str; 8] = [
    "name",
    "binary",
    "quantum",
    "caps",
    "provides",
    "route",
    "reserve",
    "reserve-caps",
];

/// Those of a server that declares its service.
const SERVER_MEMBERS: [&str; 9] = [
    "name",
    "binary",
    "quantum",
    "caps",
    "provides",
    "route",
    "reserve",
    "reserve-caps",
    "kinds",
];

/// Those of an init.
const INIT_MEMBERS: [&str; 9] = [
    "name",
    "binary",
    "quantum",
    "caps",
    "provides",
    "route",
    "reserve",
    "reserve-caps",
    "config",
];

/// Those of a rule.
const RULE_MEMBERS: [&str; 8] = [
    "service",
    "any-service",
    "label",
    "label_prefix",
    "label_suffix",
    "child",
    "any-child",
    "parent",
];

/// The objects of a start list that have members, by what they are.
#[derive(Clone, Copy)]
pub(crate) enum MemberOwner {
    /// The list itself.
    List,
    /// Its machine.
    Machine,
    /// An entry of another binary than these two.
    Entry,
    /// The entry of a server that declares its service.
    Server,
    /// An init's entry.
    Init,
    /// What an init starts.
    Config,
    /// A rule.
    Rule,
    /// A kind of objects that a server declares.
    Kind,
}

impl MemberOwner {
    /// Returns the members of this kind of object that are read, and `$schema`, by which an editor finds the schema.
    fn members(self) -> &'static [&'static str]
        ensures { map (λ known. known.now) result.now ≡ members_read self }
    {
        match self {
            MemberOwner::List => &["machine", "default-route", "start", "$schema"],
            MemberOwner::Machine => &["pages", "caps"],
            MemberOwner::Entry => &ENTRY_MEMBERS,
            MemberOwner::Server => &SERVER_MEMBERS,
            MemberOwner::Init => &INIT_MEMBERS,
            MemberOwner::Config => &["default-route", "start"],
            MemberOwner::Rule => &RULE_MEMBERS,
            MemberOwner::Kind => &["kind", "block", "bytes"],
        }
    }

    // Whether a member of this kind of object is read.
    fn reads(self, member: &str) -> bool
        ensures { result ≡ is_read self member.now }
    {
        is_among(self.members(), member)
    }

    /// Returns the remark that nothing reads a member of this kind of object, with the name that may have been meant. Returns
    /// none for a member that is read, and for a comment. Fails if the host is out of memory.
    pub(crate) fn unread(self, alloc: Global, member: &str) -> Result<Option<Remark>, AllocError>
        ensures { IfOk result (λ remark. remark ≡ unread self member.now) }
    {
        if is_comment(member) || self.reads(member) {
            return Ok(None);
        }
        let near = match nearest(alloc, self.members(), member)? {
            Some(known) => Some(StaticName(known)),
            None => None,
        };
        Ok(Some(Remark::Unread(FindingText::copy_of(alloc, member)?, near)))
    }
}

// Whether a name is one of these.
fn is_among(words: &[&str], word: &str) -> bool
    ensures { result
        ≡ list_any (λ known. bytes_eq known word.now) (map (λ known. known.now) words.now) }
{
    for known in words {
        if known.as_bytes() == word.as_bytes() {
            return true;
        }
    }
    false
}

// Whether a member is a comment: its name begins with `_`.
fn is_comment(member: &str) -> bool
    ensures { result ≡ is_comment member.now }
{
    member.as_bytes().starts_with(b"_")
}
