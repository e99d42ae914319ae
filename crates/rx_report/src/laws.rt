ghost use Rattle.std.specs.Prelude.{List, Option};
ghost use Rattle.rx_print.specs.JsonData.{ReadsAs};
ghost use Rattle.rx_report.specs.Accounts.{SectionsHaveOwnLines};
ghost use Rattle.rx_report.specs.AddsUp.{AccountsAddUp};
ghost use Rattle.rx_fields.specs.Numbered.{LotParts};
ghost use Rattle.rx_report.specs.LinesData.{claim_data, lines_data};
ghost use Rattle.rx_fields.specs.declared.stamp.Stamp.{Stamp};
ghost use Rattle.rx_report.specs.Texts.{claim_json, lines_json};
ghost use Rattle.rx_report.specs.declared.line.Line.{Line};

/// An account adds up: each section's tally is what its lines come to, the sections together have the lines of the
/// portion, each once, and the total is what those come to. Of a whole batch that total is the settlement's, of one
/// provider it is its line of the settlement.
pub fn accounts_add_up()
    ensures { AccountsAddUp }
{}

/// Each section of an account has the lines of its provider, and no other's.
pub fn sections_have_own_lines()
    ensures { SectionsHaveOwnLines }
{}

/// What is written as JSON is JSON: it is read as an array with an object for each line, in which each name has the line's
/// own value.
pub fn lines_read_as_json()
    ensures { (lines : List Line) → ReadsAs (lines_json lines) (lines_data lines) }
{}

/// Each line of `claims_json` is JSON: it is read as an object, in which each name has the value of the line, or of its batch.
pub fn claims_read_as_json()
    ensures { (lot : LotParts) → (stamp : Option Stamp) → (line : Line)
        → ReadsAs (claim_json lot stamp line) (claim_data lot stamp line) }
{}
