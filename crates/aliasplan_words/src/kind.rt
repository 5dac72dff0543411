//! What an argument is given.
use clap::ArgAction;
use clap::builder::ValueParser;

/// The kinds of arguments, by what they are given.
pub(crate) enum Kind {
    /// Nothing: it stands there or doesn't.
    Flag,
    /// A number from 1 to this one.
    Number(u64),
    /// The name of a form, which is one of these.
    Form(&'static [&'static str]),
    /// An address or a local name.
    Address,
    /// Addresses and local names, behind which the path of a file may stand.
    Addresses,
    /// A path as in SMTP.
    Path,
    /// A path as in SMTP each time that it stands there.
    Paths,
    /// The path of a file.
    File,
    /// The path of a file each time that it stands there.
    Files,
}

impl Kind {
    /// What is kept of several uses.
    pub(crate) fn action(&self) -> ArgAction {
        match self {
            Kind::Flag => ArgAction::SetTrue,
            Kind::Files | Kind::Paths | Kind::Addresses => ArgAction::Append,
            _ => ArgAction::Set,
        }
    }

    /// What the help calls that which is given.
    pub(crate) fn value_names<'a>(&self) -> &'a [&'a str] {
        match self {
            Kind::Flag => &[],
            Kind::Number(_) => &["N"],
            Kind::Form(_) => &["FORM"],
            Kind::Address | Kind::Addresses => &["ADDRESS"],
            Kind::Path | Kind::Paths => &["PATH"],
            Kind::File | Kind::Files => &["FILE"],
        }
    }

    /// What may be given.
    pub(crate) fn parser<'a>(&self) -> ValueParser<'a> {
        match self {
            Kind::Flag => ValueParser::bool(),
            Kind::Number(most) => ValueParser::unsigned(1, *most),
            Kind::Form(words) => ValueParser::from(*words),
            _ => ValueParser::string(),
        }
    }
}
