ghost use Rattle.std.specs.Prelude.{◌≡◌, IsTrue};
ghost use Rattle.rx_schedule.specs.Mentions.{AreTied, MayFollow, number_of_mention};

use crate::mentions::Mention;

/// Whether mentions of one name are of records with one number: each is compared with the next.
pub(crate) fn are_tied(mentions: &[Mention], numbers: &[usize]) -> bool
    ensures { IsTrue result → AreTied numbers.now mentions.now }
{
    'neighbours: for at in 1..mentions.len() {
        if !may_follow(numbers, &mentions[at - 1], &mentions[at]) {
            return false;
        }
    }
    true
}

// Whether a mention is of a greater name than the one before, or of the same name and number.
fn may_follow(numbers: &[usize], before: &Mention, next: &Mention) -> bool
    ensures { IsTrue result → MayFollow numbers.now before.now next.now }
{
    if before.name < next.name {
        return true;
    }
    before.name == next.name
        && number_of_mention(numbers, before) == number_of_mention(numbers, next)
}

// The number of the record that has the mention.
fn number_of_mention(numbers: &[usize], mention: &Mention) -> usize
    ensures { result ≡ number_of_mention numbers.now mention.now }
{
    numbers.get(mention.at as usize).copied().unwrap_or(0)
}
