//! How much a file has.
ghost use Rattle.std.specs.Prelude.{ℕ, ◌≤◌, List, length};
ghost use Rattle.relay_aliasfile.specs.AliasFiles.{alias_file_of};
ghost use Rattle.relay_aliasfile.specs.IncludeFiles.{include_file_of};
ghost use Rattle.relay_aliasfile.specs.MailboxFiles.{mailbox_file_of};

/// A file has no more entries, items or names than bytes.
pub fn file_counts()
    ensures entries { (text : List ℕ) → length (alias_file_of text).entries ≤ length text }
    ensures items { (text : List ℕ) → length (include_file_of text).items ≤ length text }
    ensures names { (text : List ℕ) → length (mailbox_file_of text).names ≤ length text }
{}
