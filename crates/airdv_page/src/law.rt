//! What holds of every text.
ghost use Rattle.std.specs.Prelude.{◌≡◌, List, find, is_some, option_map};
ghost use Rattle.aq_pages.specs.Kinds.{kind_of, kinds};
ghost use Rattle.aq_pages.specs.Sheets.{Line};
ghost use Rattle.airdv_page.specs.Reading.{sheet_as, sheet_at};

/// The kind of a sheet, which the page finds by its names, is the first by whose names it can be read.
pub fn sheets_are_drawn_as_they_are_read()
    ensures { (lines : List Line) → find (λ kind. is_some (sheet_as kind lines)) kinds ≡ option_map kind_of (sheet_at lines) }
{}
