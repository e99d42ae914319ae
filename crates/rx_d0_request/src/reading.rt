ghost use Rattle.std.specs.Prelude.{◌≡◌, if◌then◌else◌, None, Some};
ghost use Rattle.rx_d0_request.specs.Codes.{is_faulty};
ghost use Rattle.rx_d0_request.specs.Steps.{fill_reading, fill_conditions, fill_parts};
ghost use Rattle.rx_d0_request.specs.Steps.{bill_reading, bill_rows, bill_values, states_no_charge};
ghost use Rattle.rx_d0_request.specs.Views.{insurance_texts, claim_texts, group_texts};

use crate::known::{Claim, Group, Insurance};
use crate::value;
use rx_d0_values::{Bill, BillParts, Reversal};
use rx_fields::{Cents, Code, Days, Id, Person, Product, Quantity, Reference};

/// The fields that a reversal is asked, each read once. None, or false: the condition of its code holds.
#[derive(Clone, Copy)]
pub(crate) struct FillReading {
    pub(crate) is_reference_number: bool,
    pub(crate) reference: Option<Reference>,
    pub(crate) is_drug_code: bool,
    pub(crate) product: Option<Product>,
}

/// The fields that a billing is asked, each read once. None, or false: the condition of its code holds.
#[derive(Clone, Copy)]
pub(crate) struct BillReading {
    pub(crate) family: Option<Id>,
    pub(crate) person: Option<Person>,
    pub(crate) fill: FillReading,
    pub(crate) quantity: Option<Quantity>,
    pub(crate) days: Option<Days>,
    pub(crate) is_plain: bool,
    pub(crate) is_sole: bool,
    pub(crate) ingredient_cost: Option<Cents>,
    pub(crate) dispensing_fee: Option<Option<Cents>>,
    pub(crate) usual_charge: Option<Option<Cents>>,
    pub(crate) gross_amount: Option<Option<Cents>>,
}

impl FillReading {
    /// What the fields of a claim say.
    pub(crate) fn new(claim: &Claim) -> FillReading
        ensures { result ≡ fill_reading (claim_texts claim.now) }
    {
        FillReading {
            is_reference_number: value::is_text(claim.reference_qualifier, b"1"),
            reference: value::reference(claim.reference),
            is_drug_code: value::is_text(claim.product_qualifier, b"03"),
            product: value::product(claim.product),
        }
    }

    /// The codes of a reversal, each with its condition.
    pub(crate) fn conditions(&self) -> [(Code, bool); 4]
        ensures { result ≡ fill_conditions self.now }
    {
        [
            (Code::ReferenceQualifier, !self.is_reference_number),
            (Code::Reference, self.reference.is_none()),
            (Code::ProductQualifier, !self.is_drug_code),
            (Code::ProductId, self.product.is_none()),
        ]
    }

    /// The reversal. None: one of the conditions holds.
    #[tactic(auto, unfolding(crate::specs::Codes::is_faulty))]
    pub(crate) fn reversal(&self) -> Option<Reversal>
        ensures { result
            ≡ (if is_faulty (fill_conditions self.now) then None else Some (fill_parts self.now)) }
    {
        let reference = self.reference?;
        let product = self.product?;
        if self.is_reference_number && self.is_drug_code {
            Some(Reversal { reference, product })
        } else {
            None
        }
    }
}

impl BillReading {
    /// What the fields of the common part and of a group say.
    pub(crate) fn new(common: &Insurance, group: &Group) -> BillReading
        ensures { result ≡ bill_reading (insurance_texts common.now) (group_texts group.now) }
    {
        let claim = &group.claim;
        let pricing = &group.pricing;
        BillReading {
            family: value::family(common.cardholder),
            person: value::person(common.person),
            fill: FillReading::new(claim),
            quantity: value::quantity(claim.quantity),
            days: value::days(claim.days),
            is_plain: value::is_plain(claim.compound),
            is_sole: value::is_sole(claim.other_coverage),
            ingredient_cost: value::amount(pricing.ingredient_cost),
            dispensing_fee: value::amount_if_any(pricing.dispensing_fee),
            usual_charge: value::amount_if_any(pricing.usual_charge),
            gross_amount: value::amount_if_any(pricing.gross_amount),
        }
    }

    // Whether the usual and customary charge is no amount, or neither charge is there.
    fn states_no_charge(&self) -> bool
        ensures { result ≡ states_no_charge self.now.usual_charge self.now.gross_amount }
    {
        matches!(
            (self.usual_charge, self.gross_amount),
            (None, _) | (Some(None), Some(None))
        )
    }

    /// The codes of a billing, each with its condition; among them are those of a reversal.
    pub(crate) fn conditions(&self) -> [(Code, bool); 14]
        ensures { result ≡ bill_rows self.now }
    {
        let [reference_qualifier, reference, product_qualifier, product] = self.fill.conditions();
        [
            (Code::Cardholder, self.family.is_none()),
            (Code::Person, self.person.is_none()),
            reference_qualifier,
            reference,
            product_qualifier,
            product,
            (Code::Quantity, self.quantity.is_none()),
            (Code::DaysSupply, self.days.is_none()),
            (Code::Compound, !self.is_plain),
            (Code::OtherCoverage, !self.is_sole),
            (Code::IngredientCost, self.ingredient_cost.is_none()),
            (Code::DispensingFee, self.dispensing_fee.is_none()),
            (Code::UsualCharge, self.states_no_charge()),
            (Code::GrossAmount, self.gross_amount.is_none()),
        ]
    }

    /// The billing. None: one of the conditions holds.
    pub(crate) fn bill(&self) -> Option<Bill>
        ensures { result
            ≡ (if is_faulty (bill_rows self.now) then None else Some (bill_values self.now)) }
    {
        let family = self.family?;
        let person = self.person?;
        let fill = self.fill.reversal()?;
        let quantity = self.quantity?;
        let days = self.days?;
        if !self.is_plain || !self.is_sole {
            return None;
        }
        let ingredient_cost = self.ingredient_cost?;
        let dispensing_fee = self.dispensing_fee?;
        let usual_charge = self.usual_charge?;
        let gross_amount = self.gross_amount?;
        Bill::new(BillParts {
            reference: fill.reference,
            family,
            person,
            product: fill.product,
            quantity,
            days,
            ingredient_cost,
            dispensing_fee,
            usual_charge,
            gross_amount,
        })
    }
}
