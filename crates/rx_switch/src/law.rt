ghost use Rattle.std.specs.Prelude.{◌≡◌};
ghost use Rattle.rx_switch.specs.Output.{Given, IsOutput, Texts};

/// What a run is given has one output: whatever stands for the inputs, the three texts are the same, byte for byte. So
/// `run` has no choice where it succeeds (docs/GUARANTEES.md, "The headline, in detail").
pub fn one_output()
    ensures { (given : Given) → (texts : Texts) → (others : Texts)
        → IsOutput given texts → IsOutput given others → texts ≡ others }
{}
