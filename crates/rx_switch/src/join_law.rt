ghost use Rattle.std.specs.Prelude.{◌≡◌, ◌≤◌, length};
ghost use Rattle.rx_switch.specs.declared.join_fault.JoinFault.{JoinFault};
ghost use Rattle.rx_switch.specs.declared.join_fault.JoinFault.TheVariants as fault;
ghost use Rattle.rx_switch.specs.JoinLaw.{AreRunsOf, join_of};
ghost use Rattle.rx_switch.specs.JoinRefused.{IsNotJoined};
ghost use Rattle.rx_switch.specs.Joined.{IsJoined, JoinGiven, JoinTexts};
ghost use Rattle.rx_switch.specs.Routed.{IsRouted, SwitchGiven, SwitchTexts};

/// Join gives what route gives: of the response files of the plans' own runs of the whole batch the same response and the same
/// settlements, byte for byte; and it refuses no such files, unless memory runs out (docs/GUARANTEES.md, "Several plans").
pub fn law_of_join()
    ensures same { (g : SwitchGiven) → (t : SwitchTexts) → (j : JoinGiven) → (u : JoinTexts) → (is : IsRouted g t)
        → AreRunsOf g.batch is.inputs j → IsJoined j u → u ≡ join_of t }
    ensures accepted { (g : SwitchGiven) → (t : SwitchTexts) → (j : JoinGiven) → (f : JoinFault) → (is : IsRouted g t)
        → AreRunsOf g.batch is.inputs j → 1 ≤ length j.plans → IsNotJoined j f → f ≡ fault.Memory }
{}
