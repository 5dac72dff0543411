//! What parsed files are.
ghost use Rattle.std.specs.Prelude.{ℕ, List, IsTrue};
ghost use Rattle.std.specs.List.{list_all};
ghost use Rattle.relay_aliasfile.specs.AliasFiles.{alias_file_of};
ghost use Rattle.relay_aliasfile.specs.IncludeFiles.{include_file_of};
ghost use Rattle.relay_tables.specs.Parts.{is_good_item, is_good_entry};

/// The names and bare items of every parsed file are local parts within their limits, as `Tables::build` wants them.
pub fn parsed_files()
    ensures aliases { (text : List ℕ) → IsTrue (list_all is_good_entry (alias_file_of text).entries) }
    ensures includes { (text : List ℕ) → IsTrue (list_all is_good_item (include_file_of text).items) }
{}
