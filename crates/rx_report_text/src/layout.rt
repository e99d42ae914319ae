ghost use Rattle.std.specs.Prelude.{◌≡◌};
ghost use Rattle.rx_print.specs.Page.{Writes};
ghost use Rattle.rx_report_text.specs.Layouts.{has_claims, layout_of, page_name};

use rx_print::Page;
use rx_settle::Field;

// What a page is for.
#[derive(Clone, Copy)]
pub(crate) enum Layout {
    // A page for itself, with its claims.
    Claims,
    // A page for itself, with the command for its claims in their place.
    Commands,
    // The first page of a folder, which leads to the others.
    Index,
    // The page of a provider in a folder, which leads to the first.
    Leaf(Field),
}

impl Layout {
    /// A page for itself, with its claims or without.
    pub(crate) fn of(has_claims: bool) -> Layout
        ensures { result ≡ layout_of has_claims }
    {
        if has_claims {
            Layout::Claims
        } else {
            Layout::Commands
        }
    }

    /// Whether the page has claims.
    pub(crate) fn has_claims(self) -> bool
        ensures { result ≡ has_claims self }
    {
        match self {
            Layout::Claims | Layout::Leaf(_) => true,
            Layout::Commands | Layout::Index => false,
        }
    }
}

/// Writes the name of the page of the provider after this many.
#[tactic(auto, using(std::proofs::Common::append_assoc))]
pub(crate) fn put_page_name(page: &mut Page, before: usize)
    ensures { Writes page.old page.new (page_name before) }
{
    page.markup("p");
    page.number(before as u128 + 1);
    page.markup(".html");
}
