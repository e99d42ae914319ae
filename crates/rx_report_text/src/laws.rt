ghost use Rattle.std.specs.Prelude.{Option};
ghost use Rattle.rx_fields.specs.Numbered.{LotParts};
ghost use Rattle.rx_fields.specs.declared.stamp.Stamp.{Stamp};
ghost use Rattle.rx_print.specs.JsonData.{ReadsAs};
ghost use Rattle.rx_report.specs.declared.portion.Portion.{Portion};
ghost use Rattle.rx_report.specs.declared.section.Account.{Account};
ghost use Rattle.rx_report_text.specs.AccountData.{account_data};
ghost use Rattle.rx_report_text.specs.Json.{account_json};

/// What is written as JSON is JSON: it is read as one object, in which each name has the account's own value.
pub fn account_reads_as_json()
    ensures { (lot : LotParts) → (stamp : Option Stamp) → (portion : Portion) → (account : Account)
        → ReadsAs (account_json lot stamp portion account) (account_data lot stamp portion account) }
{}
