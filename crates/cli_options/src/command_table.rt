//! The commands of `nethrywel`, as tables.
use crate::help;

/// A command of the command line.
#[derive(Clone, Copy)]
pub(crate) struct CommandForm<'a> {
    /// The name of the command.
    pub(crate) name: &'a str,
    /// What the command does, as the help says.
    pub(crate) about: &'a str,
    /// The arguments and options of the command, in the order of the help.
    pub(crate) words: &'a [ArgumentForm<'a>],
}

/// An argument or an option of a command: its name, the name of its value, and its help.
#[derive(Clone, Copy)]
pub(crate) enum ArgumentForm<'a> {
    /// An option without a value.
    Flag(&'a str, &'a str),
    /// An option with a value.
    Value(&'a str, &'a str, &'a str),
    /// An option with a value that may be given several times.
    Values(&'a str, &'a str, &'a str),
    /// An argument that is required.
    Needed(&'a str, &'a str, &'a str),
    /// An argument that may be omitted.
    Optional(&'a str, &'a str, &'a str),
    /// An argument that is required, and may be repeated.
    Several(&'a str, &'a str, &'a str),
}

const MACHINE: ArgumentForm<'static> = ArgumentForm::Value("machine", "FILE", help::MACHINE);

const SET: ArgumentForm<'static> = ArgumentForm::Values("set", "NAME=VALUE", help::SET);

const JSON: ArgumentForm<'static> = ArgumentForm::Flag("json", help::JSON);

const JSON_ERRORS: ArgumentForm<'static> = ArgumentForm::Flag("json", help::JSON_ERRORS);

const COLOR: ArgumentForm<'static> = ArgumentForm::Value("color", "WHEN", help::COLOR);

const LIST: ArgumentForm<'static> = ArgumentForm::Needed("list", "FILE", help::LIST);

const SCENARIO: ArgumentForm<'static> = ArgumentForm::Needed(
    "scenario",
    "SCENARIO",
    help::SCENARIO,
);

/// The commands, in the order of the help.
pub(crate) const COMMANDS: &[CommandForm<'static>] = &[
    CommandForm {
        name: "run",
        about: help::RUN,
        words: &[
            MACHINE,
            ArgumentForm::Value("only", "NAME", help::ONLY),
            ArgumentForm::Flag("accounts", help::WITH_ACCOUNTS),
            ArgumentForm::Flag("numbers", help::NUMBERS),
            COLOR,
            JSON_ERRORS,
            SET,
            SCENARIO,
        ],
    },
    CommandForm {
        name: "record",
        about: help::RECORD,
        words: &[
            MACHINE,
            ArgumentForm::Flag("all", help::ANEW),
            ArgumentForm::Flag("write", help::IN_PLACE),
            JSON_ERRORS,
            SET,
            SCENARIO,
        ],
    },
    CommandForm {
        name: "check",
        about: help::CHECK,
        words: &[
            ArgumentForm::Flag("strict", help::STRICT_LIST),
            JSON,
            ArgumentForm::Value("policy", "POLICY", help::POLICY),
            SET,
            LIST,
        ],
    },
    CommandForm {
        name: "tree",
        about: help::TREE,
        words: &[ArgumentForm::Flag("dot", help::DOT), JSON, SET, LIST],
    },
    CommandForm {
        name: "reach",
        about: help::REACH,
        words: &[
            JSON,
            ArgumentForm::Values("from", "PATH", help::FROM),
            ArgumentForm::Values("to", "PATH", help::TO),
            SET,
            LIST,
        ],
    },
    CommandForm {
        name: "route",
        about: help::ROUTE,
        words: &[
            JSON_ERRORS,
            SET,
            LIST,
            ArgumentForm::Needed("client", "NAME", help::CLIENT),
            ArgumentForm::Needed("service", "SERVICE", help::SERVICE),
            ArgumentForm::Optional("args", "ARGS", help::ARGS),
        ],
    },
    CommandForm {
        name: "trace",
        about: help::TRACE,
        words: &[MACHINE, JSON, SET, SCENARIO],
    },
    CommandForm {
        name: "accounts",
        about: help::ACCOUNTS,
        words: &[MACHINE, JSON, SET, SCENARIO],
    },
    CommandForm {
        name: "alone",
        about: help::ALONE,
        words: &[
            MACHINE,
            ArgumentForm::Flag("all", help::ALL),
            ArgumentForm::Flag("summary", help::SUMMARY),
            JSON_ERRORS,
            SET,
            ArgumentForm::Needed("name", "NAME", help::NAME),
            ArgumentForm::Optional("scenario", "SCENARIO", help::SCENARIO),
        ],
    },
    CommandForm {
        name: "least",
        about: help::LEAST,
        words: &[
            MACHINE,
            ArgumentForm::Flag("as-donated", help::AS_DONATED),
            JSON,
            ArgumentForm::Flag("list", help::LEAST_LIST),
            ArgumentForm::Flag("scenario", help::LEAST_SCENARIO),
            ArgumentForm::Flag("safe", help::SAFE),
            SET,
            ArgumentForm::Needed("played", "SCENARIO", help::SCENARIO),
        ],
    },
    CommandForm {
        name: "test",
        about: help::TEST,
        words: &[
            ArgumentForm::Value("machine", "FILE", help::OTHER_MACHINE),
            ArgumentForm::Value("junit", "FILE", help::JUNIT),
            ArgumentForm::Values("filter", "TEXT", help::FILTER),
            ArgumentForm::Flag("strict", help::STRICT),
            ArgumentForm::Flag("coverage", help::COVERAGE),
            ArgumentForm::Value("threshold", "N", help::THRESHOLD),
            JSON,
            SET,
            COLOR,
            ArgumentForm::Several("path", "PATH", help::PATHS),
        ],
    },
    CommandForm {
        name: "diff",
        about: help::DIFF,
        words: &[
            JSON,
            ArgumentForm::Value("policy", "POLICY", help::COMPARED_POLICY),
            ArgumentForm::Value("scenario-after", "FILE", help::SCENARIO_AFTER),
            SET,
            ArgumentForm::Needed("before", "BEFORE", help::BEFORE),
            ArgumentForm::Needed("after", "AFTER", help::AFTER),
            ArgumentForm::Optional("scenario", "SCENARIO", help::COMPARED),
        ],
    },
    CommandForm {
        name: "help",
        about: help::HELP,
        words: &[ArgumentForm::Optional("topic", "TOPIC", help::TOPIC)],
    },
];
