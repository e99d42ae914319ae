ghost use Rattle.std.specs.Prelude.{List, Option, [], ◌≡◌, ℕ};
ghost use Rattle.rx_commands.specs.Elsewhere.{DifferElsewhere, IsSamePrinted};
ghost use Rattle.rx_commands.specs.ForProvider.{PrintsFor};
ghost use Rattle.rx_commands.specs.Forms.{IsReportText};
ghost use Rattle.rx_commands.specs.OthersReport.{IsNoPage, IsPortionOf, IsSameReport};
ghost use Rattle.rx_commands.specs.declared.manner.Manner.{Manner};
ghost use Rattle.rx_commands.specs.declared.printed.Printed.{Printed};
ghost use Rattle.rx_commands.specs.declared.report_forms.Form.{Form};
ghost use Rattle.rx_commands.specs.declared.report_forms.PrintedReport.{PrintedReport};
ghost use Rattle.rx_explain.specs.declared.finding.Query.{Query};
ghost use Rattle.rx_fields.specs.declared.stamp.Stamp.{Stamp};
ghost use Rattle.rx_report.specs.declared.portion.Portion.{Portion};

/// What `explain` prints for a pharmacy has nothing of other pharmacies' names: two jobs that differ only in names, products,
/// prescriptions and pharmacies of other pharmacies' claims give the same text and end alike, whatever is asked for
/// (docs/CLI.md, "explain").
pub fn others_names_leave_the_text()
    ensures { (own sheet books batch other_books other_batch : List ℕ)
        → DifferElsewhere own sheet books batch other_books other_batch
        → (query : Query) → (response : Option (List ℕ)) → (manner : Manner) → (one other : Printed)
        → PrintsFor sheet books batch own query response manner one
        → PrintsFor sheet other_books other_batch own query response manner other → IsSamePrinted one other }
{}

/// What `report` prints for a pharmacy has nothing of these names either: two such jobs give the same text, with lines or
/// without, in each form but the page, which no pharmacy gets. The empty id is no pharmacy's: it stands for all that name none
/// (docs/CLI.md, "explain").
pub fn others_names_leave_the_report()
    ensures { (own sheet books batch other_books other_batch : List ℕ) → ¬ (own ≡ [])
        → DifferElsewhere own sheet books batch other_books other_batch
        → (stamp : Option Stamp) → (form : Form) → IsNoPage form
        → (first second : Portion) → IsPortionOf own first → IsPortionOf own second → (one other : PrintedReport)
        → IsReportText sheet books batch stamp first form one
        → IsReportText sheet other_books other_batch stamp second form other → IsSameReport one other }
{}
