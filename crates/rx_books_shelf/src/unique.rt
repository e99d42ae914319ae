ghost use Rattle.std.specs.Prelude.{◌≡◌};
ghost use Rattle.std.specs.declared.cmp.Ordering.TheVariants.{Equal};
ghost use Rattle.rx_sorted.specs.Ascending.{IsAscending, contains_key, itself};

/// Leaves each item once, in ascending order. It takes no memory.
pub(crate) fn put_in_order<K: Ord + Copy + Drop>(items: &mut Vec<K>)
    requires { (a : K) → (b : K) → K.cmp a b ≡ Equal → a ≡ b }
    ensures rise { IsAscending K.cmp itself items.new.items }
    ensures same { (k : K) → contains_key K.cmp itself items.new.items k ≡ contains_key K.cmp itself items.old.items k }
{
    items.sort_unstable();
    items.dedup_by(|later, earlier| (*later).cmp(earlier).is_eq());
}
