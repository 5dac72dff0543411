//! Where the arguments of a command stand.

/// Where an argument stands.
pub(crate) enum Position {
    /// Behind its long name.
    Option,
    /// Behind its long name or this letter, in front of a command or behind it.
    GlobalOption(char),
    /// By itself, if at all.
    Operand,
    /// By itself.
    RequiredOperand,
}
