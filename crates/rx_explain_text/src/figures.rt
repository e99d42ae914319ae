ghost use Rattle.std.specs.Prelude.{◌≡◌, ◌+◌, ◌++◌, OnOk};
ghost use Rattle.std.specs.Option.{option_copied, option_map, unwrap_or};
ghost use Rattle.rx_explain_text.specs.Figures.{accumulator_lines, allowed_line, allowed_of, charge_text, coinsurance_line};
ghost use Rattle.rx_explain_text.specs.Figures.{copay_line, copay_text, cost_line, cut_text, due_text, family_left_lines};
ghost use Rattle.rx_explain_text.specs.Figures.{family_lines, fee_line, figure_lines, labelled, left_lines, less_text, paid_lines};
ghost use Rattle.rx_explain_text.specs.Figures.{paid_of, payer_lines, payment_lines, pays_line, percent_text, priced_text};
ghost use Rattle.rx_explain_text.specs.Figures.{named_tier, product_text, rest_text, share_line, short_copay_text, submitted_text, tier_words};
ghost use Rattle.rx_explain_text.specs.Figures.{whole_copay_text};
ghost use Rattle.rx_print.specs.Page.{Writes};

use crate::codes::put_quoted;
use crate::counted::{Claims, Counts, Listing, put_claims};
use rx_d0_values::{Bill, Transaction};
use rx_explain::{Explanation, Traced, Workings};
use rx_ledger::{Figures, Share};
use rx_print::Page;

/// How wide the labels are, in bytes.
pub(crate) const LABEL: usize = 26;

/// How wide the amounts are, in bytes.
pub(crate) const AMOUNT: usize = 14;

/// The billing that is paid, and the steps to its amounts; None of another transaction.
pub(crate) fn paid(explanation: &Explanation) -> Option<(&Bill, &Workings)>
    ensures { option_map (λ p. (p.0.now, p.1.now)) result ≡ paid_of explanation.now.transaction explanation.now.workings }
{
    match (&explanation.transaction, &explanation.workings) {
        (Transaction::Bill(bill), Some(workings)) => Some((bill, workings)),
        _ => None,
    }
}

/// The figures of a claim that is paid, a line each, with where each comes from; nothing of another.
pub(crate) fn put_figures(
    page: &mut Page,
    figures: &Figures,
    explanation: &Explanation,
    tier: Option<&str>,
    listing: Listing,
)
    ensures { Writes page.old page.new (figure_lines listing (option_copied tier.entry) explanation.now.transaction figures.now explanation.now) }
{
    if let Some((bill, workings)) = paid(explanation) {
        put_paid(page, figures, explanation, bill, workings, tier, listing);
    }
}

#[tactic(auto, using(std::proofs::Common::append_assoc), unfolding(crate::specs::Figures::paid_lines))]
fn put_paid(
    page: &mut Page,
    figures: &Figures,
    explanation: &Explanation,
    bill: &Bill,
    workings: &Workings,
    tier: Option<&str>,
    listing: Listing,
)
    ensures { Writes page.old page.new (paid_lines listing (option_copied tier.entry) figures.now explanation.now bill.now workings.now) }
{
    put_cost(page, bill, workings);
    put_fee(page, figures, bill, workings);
    put_allowed(page, bill, workings);
    put_accumulators(page, figures, explanation, bill, workings, listing);
    put_payment(page, workings, tier);
}

// A label and an amount, each in its column.
#[tactic(auto, using(std::proofs::Common::append_assoc), unfolding(crate::specs::Figures::labelled))]
fn line(page: &mut Page, label: &str, cents: u128)
    ensures { Writes page.old page.new (labelled label.now cents) }
{
    page.say("  ");
    page.say(label);
    page.blanks(LABEL.saturating_sub(label.len()));
    page.column(AMOUNT, cents);
}

// Whether a limit cut a figure.
#[tactic(auto, using(std::proofs::Common::append_assoc), unfolding(crate::specs::Figures::cut_text))]
fn put_cut(page: &mut Page, limit: &str, paid: u128, due: u128)
    ensures { Writes page.old page.new (cut_text limit.now paid due) }
{
    if paid >= due {
        return;
    }
    page.say(", cut to ");
    page.money(paid);
    page.say(": ");
    page.say(limit);
}

// What is due, where a limit cuts it.
#[tactic(auto, using(std::proofs::Common::append_assoc), unfolding(crate::specs::Figures::due_text))]
fn put_due(page: &mut Page, limit: &str, paid: u128, due: u128)
    ensures { Writes page.old page.new (due_text limit.now paid due) }
{
    if paid >= due {
        return;
    }
    page.say("  ");
    page.money(due);
    put_cut(page, limit, paid, due);
}

// What was submitted, where the plan's figure isn't above it, with words for either case.
#[tactic(auto, using(std::proofs::Common::append_assoc), unfolding(crate::specs::Figures::submitted_text))]
fn put_submitted(page: &mut Page, submitted: u64, plan: u64, lower: &str, higher: &str)
    ensures { Writes page.old page.new (submitted_text submitted plan lower.now higher.now) }
{
    if submitted < plan {
        page.say(lower);
    } else {
        page.money(u128::from(submitted));
        page.say(higher);
    }
}

// The ingredient cost: which of two is lower, and what the charge cuts off.
#[tactic(auto, using(std::proofs::Common::append_assoc), unfolding(crate::specs::Figures::cost_line))]
fn put_cost(page: &mut Page, bill: &Bill, workings: &Workings)
    ensures { Writes page.old page.new (cost_line bill.now workings.now) }
{
    let submitted = bill.parts().ingredient_cost.get();
    let paid = u128::from(workings.payment.pricing.amounts().ingredient_cost);
    line(page, "ingredient cost F6", paid);
    page.say("  ");
    put_submitted(
        page,
        submitted,
        workings.cost,
        "as submitted; the plan's price is ",
        " submitted, paid by the plan's price: ",
    );
    put_priced(page, bill, workings);
    put_cut(page, CHARGE, paid, u128::from(workings.ingredient_cost));
    page.say("\n");
}

// The quantity at the plan's price.
#[tactic(auto, using(std::proofs::Common::append_assoc), unfolding(crate::specs::Figures::priced_text))]
fn put_priced(page: &mut Page, bill: &Bill, workings: &Workings)
    ensures { Writes page.old page.new (priced_text bill.now workings.now) }
{
    page.thousandths(bill.parts().quantity.get());
    page.say(" x ");
    page.price(workings.payment.drug.price);
    page.say(" = ");
    page.money(u128::from(workings.cost));
}

// The dispensing fee: which of two is lower, and what the charge cuts off.
#[tactic(auto, using(std::proofs::Common::append_assoc), unfolding(crate::specs::Figures::fee_line))]
fn put_fee(page: &mut Page, figures: &Figures, bill: &Bill, workings: &Workings)
    ensures { Writes page.old page.new (fee_line figures.now bill.now workings.now) }
{
    let paid = u128::from(workings.payment.pricing.amounts().dispensing_fee);
    line(page, "dispensing fee F7", paid);
    page.say("  ");
    put_submitted(
        page,
        submitted_fee(bill),
        figures.fee,
        "as submitted; the plan's fee is ",
        " submitted, paid by the plan's fee of ",
    );
    page.money(u128::from(figures.fee));
    put_cut(page, CHARGE, paid, u128::from(workings.dispensing_fee));
    page.say("\n");
}

// The dispensing fee submitted, nothing if there is none.
fn submitted_fee(bill: &Bill) -> u64
    ensures { result ≡ unwrap_or bill.now.dispensing_fee 0 }
{
    match bill.parts().dispensing_fee {
        Some(fee) => fee.get(),
        None => 0,
    }
}

// What both come to, next to the charge.
#[tactic(auto, using(std::proofs::Common::append_assoc), unfolding(crate::specs::Figures::allowed_line))]
fn put_allowed(page: &mut Page, bill: &Bill, workings: &Workings)
    ensures { Writes page.old page.new (allowed_line bill.now workings.now) }
{
    let amounts = workings.payment.pricing.amounts();
    let allowed = both(amounts.ingredient_cost, amounts.dispensing_fee);
    let before = both(workings.ingredient_cost, workings.dispensing_fee);
    line(page, "allowed", allowed);
    put_due(page, CHARGE, allowed, before);
    put_charge(page, bill);
    page.money(u128::from(workings.cap));
    page.say("\n");
}

// What two amounts come to.
fn both(a: u64, b: u64) -> u128
    ensures { result ≡ a + b }
{
    u128::from(a) + u128::from(b)
}

// The charge by its field.
fn put_charge(page: &mut Page, bill: &Bill)
    ensures { Writes page.old page.new (charge_text bill.now.usual_charge) }
{
    match bill.parts().usual_charge {
        Some(_) => page.say("  the usual charge DQ is "),
        None => page.say("  the gross amount due DU, as no usual charge is given, is "),
    }
}

// What is left of the plan's figures, with the claims that used them.
#[tactic(auto, using(std::proofs::Common::append_assoc), unfolding(crate::specs::Figures::accumulator_lines))]
fn put_accumulators(
    page: &mut Page,
    figures: &Figures,
    explanation: &Explanation,
    bill: &Bill,
    workings: &Workings,
    listing: Listing,
)
    ensures { Writes page.old page.new (accumulator_lines listing figures.now explanation.now.counted.items bill.now workings.now) }
{
    let used = &workings.payment.used;
    let claims = Claims {
        counted: explanation.counted.as_slice(),
        bill,
        counts: Counts::MemberDeductible,
        listing,
    };
    line(
        page,
        "member's deductible left",
        u128::from(workings.deductible_left),
    );
    put_left(page, figures.member_deductible, used.deductible, &claims);
    put_family(page, figures.family_deductible, workings, &claims);
    line(page, "family's maximum left", u128::from(workings.room));
    put_left(
        page,
        figures.family_maximum,
        used.out_of_pocket,
        &Claims {
            counts: Counts::OutOfPocket,
            ..claims
        },
    );
}

// The family's deductible, where the plan has one.
#[tactic(auto, using(std::proofs::Common::append_assoc))]
fn put_family(page: &mut Page, figure: Option<u64>, workings: &Workings, claims: &Claims<'_>)
    ensures { let b = claims.now in Writes page.old page.new (family_lines b.listing figure workings.now.family_deductible_left b.counted.now b.bill.now workings.now) }
{
    match (figure, workings.family_deductible_left) {
        (Some(figure), Some(left)) => {
            let used = workings.payment.used.family_deductible;
            let claims = Claims {
                counts: Counts::FamilyDeductible,
                ..*claims
            };
            put_family_left(page, figure, left, used, &claims)
        }
        _ => (),
    }
}

#[tactic(auto, using(std::proofs::Common::append_assoc), unfolding(crate::specs::Figures::family_left_lines))]
fn put_family_left(page: &mut Page, figure: u64, left: u64, used: u128, claims: &Claims<'_>)
    ensures { let b = claims.now in Writes page.old page.new (family_left_lines b.listing figure left used b.counts b.bill.now b.counted.now) }
{
    let left = u128::from(left);
    line(page, "family's deductible left", left);
    put_left(page, figure, used, claims);
}

// What an amount left is the rest of, and the claims that used it.
#[tactic(auto, using(std::proofs::Common::append_assoc), unfolding(crate::specs::Figures::left_lines))]
fn put_left(page: &mut Page, figure: u64, used: u128, claims: &Claims<'_>)
    ensures { let b = claims.now in Writes page.old page.new (left_lines b.listing figure used b.counts b.bill.now b.counted.now) }
{
    put_less(page, figure, used);
    put_claims(page, used, claims);
}

#[tactic(auto, using(std::proofs::Common::append_assoc), unfolding(crate::specs::Figures::less_text))]
fn put_less(page: &mut Page, figure: u64, used: u128)
    ensures { Writes page.old page.new (less_text figure used) }
{
    page.say("  ");
    page.money(u128::from(figure));
    page.say(" less ");
    page.money(used);
    page.say("\n");
}

// The deductible, the copay or coinsurance, and who pays what.
#[tactic(auto, using(std::proofs::Common::append_assoc), unfolding(crate::specs::Figures::payment_lines))]
fn put_payment(page: &mut Page, workings: &Workings, tier: Option<&str>)
    ensures { Writes page.old page.new (payment_lines (option_copied tier.entry) workings.now) }
{
    let deductible = u128::from(workings.payment.pricing.amounts().deductible);
    line(page, "deductible FH", deductible);
    put_due(page, MAXIMUM, deductible, u128::from(workings.under));
    page.say("\n");
    put_share(page, workings, tier);
    page.say("\n");
    put_payers(page, workings);
}

// The copay or the coinsurance, and the tier's.
fn put_share(page: &mut Page, workings: &Workings, tier: Option<&str>)
    ensures { Writes page.old page.new (share_line (option_copied tier.entry) workings.now.payment.drug.share workings.now) }
{
    match workings.payment.drug.share {
        Share::Copay(cents) => put_copay(page, workings, cents, tier),
        Share::Percent(percent) => put_coinsurance(page, workings, percent, tier),
    }
}

#[tactic(auto, using(std::proofs::Common::append_assoc), unfolding(crate::specs::Figures::copay_line))]
fn put_copay(page: &mut Page, workings: &Workings, cents: u64, tier: Option<&str>)
    ensures { Writes page.old page.new (copay_line (option_copied tier.entry) cents workings.now) }
{
    let paid = u128::from(workings.payment.pricing.amounts().copay);
    line(page, "copay FI", paid);
    put_copay_of(
        page,
        u128::from(cents),
        allowed(workings),
        u128::from(workings.under),
    );
    put_tier(page, tier);
    put_cut(page, MAXIMUM, paid, u128::from(workings.share));
}

// The tier by its name.
fn put_tier(page: &mut Page, tier: Option<&str>)
    ensures { Writes page.old page.new (tier_words (option_copied tier.entry)) }
{
    if let Some(name) = tier {
        put_named_tier(page, name);
    }
}

#[tactic(auto, using(std::proofs::Common::append_assoc), unfolding(crate::specs::Figures::named_tier))]
fn put_named_tier(page: &mut Page, name: &str)
    ensures { Writes page.old page.new (named_tier name.now) }
{
    page.say(", tier ");
    put_quoted(page, name.as_bytes());
}

// What is allowed, in cents.
fn allowed(workings: &Workings) -> u128
    ensures { result ≡ allowed_of workings.now }
{
    let amounts = workings.payment.pricing.amounts();
    both(amounts.ingredient_cost, amounts.dispensing_fee)
}

// The tier's copay, against what is left of an allowed amount.
fn put_copay_of(page: &mut Page, cents: u128, allowed: u128, under: u128)
    ensures { Writes page.old page.new (copay_text cents allowed under) }
{
    if allowed <= under {
        page.say("  nothing is left after the deductible")
    } else if allowed - under < cents {
        put_short_copay(page, cents, allowed, under)
    } else {
        put_whole_copay(page, cents)
    }
}

#[tactic(auto, using(std::proofs::Common::append_assoc), unfolding(crate::specs::Figures::whole_copay_text))]
fn put_whole_copay(page: &mut Page, cents: u128)
    ensures { Writes page.old page.new (whole_copay_text cents) }
{
    page.say("  copay of ");
    page.money(cents);
}

#[tactic(auto, using(std::proofs::Common::append_assoc), unfolding(crate::specs::Figures::short_copay_text))]
fn put_short_copay(page: &mut Page, cents: u128, allowed: u128, under: u128)
    ensures { Writes page.old page.new (short_copay_text cents allowed under) }
{
    put_whole_copay(page, cents);
    page.say("; only ");
    put_rest(page, allowed, under);
    page.say(" is left");
}

// What is left of an allowed amount after the deductible.
#[tactic(auto, using(std::proofs::Common::append_assoc), unfolding(crate::specs::Figures::rest_text))]
fn put_rest(page: &mut Page, allowed: u128, under: u128)
    ensures { Writes page.old page.new (rest_text allowed under) }
{
    page.money(allowed.saturating_sub(under));
    page.say(" (");
    page.money(allowed);
    page.say(" less ");
    page.money(under);
    page.say(")");
}

#[tactic(auto, using(std::proofs::Common::append_assoc), unfolding(crate::specs::Figures::coinsurance_line))]
fn put_coinsurance(page: &mut Page, workings: &Workings, percent: u8, tier: Option<&str>)
    ensures { Writes page.old page.new (coinsurance_line (option_copied tier.entry) percent workings.now) }
{
    let paid = u128::from(workings.payment.pricing.amounts().coinsurance);
    line(page, "coinsurance 4U", paid);
    put_percent_of(page, workings, percent);
    put_tier(page, tier);
    put_cut(page, MAXIMUM, paid, u128::from(workings.share));
}

// The tier's percentage of what is left of an allowed amount.
fn put_percent_of(page: &mut Page, workings: &Workings, percent: u8)
    ensures { Writes page.old page.new (percent_text percent workings.now) }
{
    let (allowed, under) = (allowed(workings), u128::from(workings.under));
    if allowed <= under {
        page.say("  nothing is left after the deductible")
    } else {
        put_product(
            page,
            u128::from(percent),
            allowed,
            under,
            u128::from(workings.share),
        )
    }
}

#[tactic(auto, using(std::proofs::Common::append_assoc), unfolding(crate::specs::Figures::product_text))]
fn put_product(page: &mut Page, percent: u128, allowed: u128, under: u128, share: u128)
    ensures { Writes page.old page.new (product_text percent allowed under share) }
{
    page.say("  ");
    page.number(percent);
    page.say(" percent of ");
    put_rest(page, allowed, under);
    page.say(" = ");
    page.money(share);
}

#[tactic(auto, using(std::proofs::Common::append_assoc), unfolding(crate::specs::Figures::payer_lines))]
fn put_payers(page: &mut Page, workings: &Workings)
    ensures { Writes page.old page.new (payer_lines workings.now) }
{
    put_pays(
        page,
        "member pays F5",
        workings.payment.pricing.patient_pay(),
    );
    put_pays(page, "plan pays F9", workings.payment.pricing.total_paid());
}

#[tactic(auto, using(std::proofs::Common::append_assoc), unfolding(crate::specs::Figures::pays_line))]
fn put_pays(page: &mut Page, label: &str, cents: u64)
    ensures { Writes page.old page.new (pays_line label.now cents) }
{
    line(page, label, u128::from(cents));
    page.say("\n");
}

const MAXIMUM: &str = "the family's maximum";

const CHARGE: &str = "the charge";
