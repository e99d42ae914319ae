ghost use Rattle.std.specs.Prelude.{◌≡◌, ◌+◌, ◌<◌, ◌≤◌, ◌^◌, ℕ, List, Some, take};
ghost use Rattle.std.specs.List.{prefix_len};
ghost use Rattle.rx_batch.specs.Grammar.{IsFile};
ghost use Rattle.rx_batch.specs.Header.{lot_in};
ghost use Rattle.rx_batch.specs.declared.detail.Detail.{Detail};
ghost use Rattle.rx_batch.specs.declared.head.Head.{Head};
ghost use Rattle.rx_batch.specs.declared.layout.TheConstants.{CREATION_TIME_AT};
ghost use Rattle.rx_d0_values.specs.declared.reply.Reply.{Reply};
ghost use Rattle.rx_fields.specs.Numbered.{LotParts};
ghost use Rattle.rx_fields.specs.declared.stamp.Stamp.{Stamp};
ghost use Rattle.rx_run_log.specs.Header.{lot_of};
ghost use Rattle.rx_run_log.specs.Settlement.{totals_of, totals_told};
ghost use Rattle.rx_run_log.specs.Traffic.{last_of};
ghost use Rattle.rx_run_log.specs.declared.traffic.TheConstants.{KEPT};
ghost use Rattle.rx_settle.specs.Answers.{answers_of, tally, weight};
ghost use Rattle.rx_settle.specs.Settlement.{settlement_text};
ghost use Rattle.rx_text.specs.Bytes.{is_line_end};

/// What a log says of a settlement is so: the bytes that are kept of the end of a settlement's text give the tally of all its
/// answers, as long as the tally's numbers together are below 2^63.
pub fn totals_are_the_settlements()
    ensures { (lot : LotParts) → (stamp : Stamp) → (replies : List Reply)
        → weight (tally (answers_of replies)) < 2 ^ 63
        → totals_of (last_of KEPT (settlement_text lot stamp replies)) ≡ Some (totals_told (tally (answers_of replies))) }
{}

/// What a log says of a batch is so: the bytes that are kept of the front of a batch file give texts that are read as its
/// header's lot, as long as the CR and LF before the header leave room for these.
pub fn lot_is_the_headers()
    ensures { (bytes : List ℕ) → (head : Head) → (details : List Detail) → IsFile bytes head details
        → prefix_len is_line_end bytes + 1 + CREATION_TIME_AT ≤ KEPT
        → (number : List ℕ) × (created : List ℕ) × (lot_of (take KEPT bytes) ≡ Some (number, created))
        × (lot_in number created ≡ Some head.lot) }
{}
