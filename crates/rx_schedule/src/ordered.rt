ghost use Rattle.std.specs.Prelude.{◌≡◌};
ghost use Rattle.std.specs.declared.cmp.Ordering.TheVariants.{Equal};
ghost use Rattle.rx_schedule.specs.Footprints.{in_order};

/// Leaves each item once, in ascending order. It takes no memory.
pub(crate) fn put_in_order<K: Ord + Copy + Drop>(items: &mut Vec<K>)
    requires { (a : K) → (b : K) → K.cmp a b ≡ Equal → a ≡ b }
    ensures { items.new.items ≡ in_order K.cmp items.old.items }
{
    items.sort_unstable();
    items.dedup_by(|later, earlier| (*later).cmp(earlier).is_eq());
}
