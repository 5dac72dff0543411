//! The arguments that the commands take.
use crate::argument::Argument;
use crate::kind::Kind;
use crate::position::Position;

pub(crate) const WORKERS: Argument = Argument {
    name: "workers",
    position: Position::Option,
    kind: Kind::Number(64),
    help: "How many threads share a piece of work, from 1 to 64; 4 where it isn't said",
};

pub(crate) const CUT: Argument = Argument {
    name: "cut",
    position: Position::Option,
    kind: Kind::Number(1_048_576),
    help: "How many pairs of sender and name a thread takes at once, from 1 to 1048576; 1024 where it isn't said",
};

pub(crate) const MAX_BYTES: Argument = Argument {
    name: "max-bytes",
    position: Position::Option,
    kind: Kind::Number(67_108_864),
    help: "How many bytes a job has at most, from 1 to 67108864; 67108864 where it isn't said",
};

pub(crate) const MAX_NAMES: Argument = Argument {
    name: "max-names",
    position: Position::Option,
    kind: Kind::Number(16_777_216),
    help: "How many names a job has at most, from 1 to 16777216; 16777216 where it isn't said",
};

pub(crate) const MAX_OWNERS: Argument = Argument {
    name: "max-owners",
    position: Position::Option,
    kind: Kind::Number(65_535),
    help: "How many aliases with an owner it has at most, from 1 to 65535; 65535 where it isn't said",
};

pub(crate) const MAX_PAIRS: Argument = Argument {
    name: "max-pairs",
    position: Position::Option,
    kind: Kind::Number(16_777_216),
    help: "How many pairs of sender and name it reaches at most, from 1 to 16777216; 16777216 where it isn't said",
};

pub(crate) const FORM: Argument = Argument {
    name: "form",
    position: Position::Option,
    kind: Kind::Form(&["plan", "wire", "json"]),
    help: "plan for its lines, as where it isn't said, wire for the commands of each transaction, json for one JSON object, with --each one a line",
};

pub(crate) const RETURNS: Argument = Argument {
    name: "returns",
    position: Position::Option,
    kind: Kind::Flag,
    help: "Before the findings, says for each sender what can't be delivered, and for which recipient; not in JSON",
};

pub(crate) const EACH: Argument = Argument {
    name: "each",
    position: Position::Option,
    kind: Kind::Flag,
    help: "Plans many envelopes by the same tables: in place of %envelope sections %envelope ID",
};

pub(crate) const TABLES: Argument = Argument {
    name: "tables",
    position: Position::Option,
    kind: Kind::File,
    help: "With --each: the file with the settings, files and tables; then each envelope is answered when it has ended",
};

pub(crate) const ALL: Argument = Argument {
    name: "all",
    position: Position::Option,
    kind: Kind::Flag,
    help: "Also follows every alias, as if a message went to all of them: loops, missing names, addresses without a route",
};

pub(crate) const VERBOSE: Argument = Argument {
    name: "verbose",
    position: Position::GlobalOption('v'),
    kind: Kind::Flag,
    help: "Where there is a fault, says on a second line which line or file has it, and why",
};

pub(crate) const ADDRESS: Argument = Argument {
    name: "address",
    position: Position::RequiredOperand,
    kind: Kind::Address,
    help: "The address or local name that is asked for",
};

pub(crate) const FROM: Argument = Argument {
    name: "from",
    position: Position::Option,
    kind: Kind::Path,
    help: "With --to: the sender, in place of the envelope's; <> is the null sender, as where it isn't said",
};

pub(crate) const TO: Argument = Argument {
    name: "to",
    position: Position::Option,
    kind: Kind::Paths,
    help: "A recipient, in place of the envelope's; a name without a domain is one at the origin",
};

pub(crate) const SENDERS: Argument = Argument {
    name: "senders",
    position: Position::Option,
    kind: Kind::Flag,
    help: "Writes each address behind each sender under which it is reached, with a tab between them",
};

pub(crate) const TREE: Argument = Argument {
    name: "tree",
    position: Position::Option,
    kind: Kind::Flag,
    help: "Writes a tree of what lies in what on the way to the addresses, with each alias's owner",
};

pub(crate) const EXPANSION_FORM: Argument = Argument {
    name: "form",
    position: Position::Option,
    kind: Kind::Form(&["lines", "dot"]),
    help: "lines for the addresses, as where it isn't said, dot for what leads to them as a graph for Graphviz",
};

pub(crate) const ADDRESSES: Argument = Argument {
    name: "addresses",
    position: Position::RequiredOperand,
    kind: Kind::Addresses,
    help: "The addresses and local names, and behind them FILE, which the job is read from; - is standard input, as is no FILE",
};

pub(crate) const JOB_FILE: Argument = Argument {
    name: "file",
    position: Position::Operand,
    kind: Kind::File,
    help: "The file that the job is read from; - is standard input, as is no FILE",
};

pub(crate) const SETTINGS: Argument = Argument {
    name: "settings",
    position: Position::Option,
    kind: Kind::File,
    help: "The settings",
};

pub(crate) const ALIASES: Argument = Argument {
    name: "aliases",
    position: Position::Option,
    kind: Kind::Files,
    help: "An alias file, whose include files are followed",
};

pub(crate) const MAILBOXES: Argument = Argument {
    name: "mailboxes",
    position: Position::Option,
    kind: Kind::File,
    help: "The names that have a mailbox, one a line",
};

pub(crate) const TRANSPORT: Argument = Argument {
    name: "transport",
    position: Position::Option,
    kind: Kind::Files,
    help: "A transport table",
};

pub(crate) const MX: Argument = Argument {
    name: "mx",
    position: Position::Option,
    kind: Kind::File,
    help: "The mail exchangers",
};

pub(crate) const ENVELOPE: Argument = Argument {
    name: "envelope",
    position: Position::Option,
    kind: Kind::File,
    help: "The envelope: the sender and the recipients",
};
