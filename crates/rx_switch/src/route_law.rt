ghost use Rattle.std.specs.Prelude.{◌≡◌, ◌≤◌, ◌-◌, Some, ℕ, false, length, option_map, slice_get, slice_index_or, true};
ghost use Rattle.std.specs.List.{list_any};
ghost use Rattle.rx_d0_request.specs.Doors.{door_in, names_plan, stray_reply};
ghost use Rattle.rx_switch.specs.Output.{IsOutput, Texts, ledger_at_end, replies};
ghost use Rattle.rx_switch.specs.Own.{IsPlanOf, no_reply, own_records, run_replies};
ghost use Rattle.rx_switch.specs.Routed.{IsRouted, OnePlan, PlanTexts, SwitchGiven, SwitchTexts, Switched, door_of};
ghost use Rattle.rx_switch.specs.Routed.{doors_of, given_to, is_own, own_replies, request_at, routed_reply, run_of, with_workers};
ghost use Rattle.rx_switch.specs.Runs.{AnswersAlike};

/// What a switch replies (docs/GUARANTEES.md, "Several plans"). To a record that names a plan, what the plan's run of the
/// whole batch replies at that place; to one that names none, the rejection of a stray. So a plan's settlement is over the
/// replies that its run gives to its own records.
pub fn law_of_route()
    ensures named { (x : Switched) → (p : OnePlan) → IsPlanOf x p → (place : ℕ) → 1 ≤ place → place ≤ length x.details
        → is_own x (door_of p) place ≡ true
        → routed_reply x place ≡ slice_index_or (replies (run_of x p)) (place - 1) no_reply }
    ensures stray { (x : Switched) → (place : ℕ)
        → list_any (names_plan (door_in (request_at x place))) (doors_of x.plans) ≡ false
        → routed_reply x place ≡ stray_reply (doors_of x.plans) (request_at x place) }
    ensures own { (x : Switched) → (p : OnePlan) → IsPlanOf x p → own_replies x p ≡ run_replies x p }
{}

/// What a switch gives of a plan is what `run` of the same batch under that plan gives, whenever the two are done: the plan's
/// end books are the run's, byte for byte, and at each place whose record names the plan the response files have one detail.
pub fn law_of_runs()
    ensures books { (g : SwitchGiven) → (t : SwitchTexts) → (n : ℕ) → (texts : PlanTexts) → (run : Texts) → IsRouted g t
        → slice_get g.plans n ≡ Some texts → IsOutput (given_to g texts) run
        → option_map (λ o. o.books) (slice_get t.plans n) ≡ Some run.books }
    ensures details { (g : SwitchGiven) → (t : SwitchTexts) → (n : ℕ) → (texts : PlanTexts) → (run : Texts) → IsRouted g t
        → slice_get g.plans n ≡ Some texts → IsOutput (given_to g texts) run
        → AnswersAlike texts.sheet g.batch t.response run.response }
{}

/// Nobody else matters: a plan's end books, and the replies to its records, depend only on its own records. They are the same
/// for two batches of one lot whose records of that plan are the same at the same places, whatever the others are.
pub fn law_of_own_records()
    ensures books { (x : Switched) → (y : Switched) → (p : OnePlan) → x.head.lot ≡ y.head.lot
        → own_records x (door_of p) ≡ own_records y (door_of p)
        → ledger_at_end (run_of x p) ≡ ledger_at_end (run_of y p) }
    ensures replies { (x : Switched) → (y : Switched) → (p : OnePlan) → x.head.lot ≡ y.head.lot
        → own_records x (door_of p) ≡ own_records y (door_of p) → run_replies x p ≡ run_replies y p }
{}

/// What a switch is given has one output, for every number of workers: whatever texts meet the definition, they are the same.
pub fn law_of_one_route()
    ensures { (g : SwitchGiven) → (workers : ℕ) → (t : SwitchTexts) → (u : SwitchTexts) → IsRouted g t
        → IsRouted (with_workers g workers) u → t ≡ u }
{}
