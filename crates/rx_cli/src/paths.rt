//! The paths of `run`.
ghost use Rattle.std.specs.Prelude.{◌≡◌, map};
ghost use Rattle.rx_cli.specs.Paths.{has_twice};

/// Says whether a text stands twice among the paths.
pub(crate) fn has_one_twice(paths: &[&str]) -> bool
    ensures { result ≡ has_twice (map (λ p. p.now) paths.now) }
{
    if paths.is_empty() {
        return false;
    }
    let (first, rest) = (paths[0], &paths[1..]);
    rest.contains(&first) || has_one_twice(rest)
}
