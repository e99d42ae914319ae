ghost use Rattle.std.specs.Prelude.{◌≡◌, option_map};
ghost use Rattle.rx_d0_request.specs.Known.{insurance_of, claim_of, pricing_of, common_of, group_of};
ghost use Rattle.rx_d0_request.specs.Slots.{text_of};
ghost use Rattle.rx_d0_request.specs.Views.{insurance_texts, claim_texts, pricing_texts, group_texts};

use crate::field::put_values;
use crate::part::put_segments;

/// The values of segment 04, insurance.
#[derive(Clone, Copy)]
pub(crate) struct Insurance<'a> {
    pub(crate) cardholder: Option<&'a [u8]>,
    pub(crate) person: Option<&'a [u8]>,
}

/// The values of segment 07, claim.
#[derive(Clone, Copy)]
pub(crate) struct Claim<'a> {
    pub(crate) reference_qualifier: Option<&'a [u8]>,
    pub(crate) reference: Option<&'a [u8]>,
    pub(crate) product_qualifier: Option<&'a [u8]>,
    pub(crate) product: Option<&'a [u8]>,
    pub(crate) quantity: Option<&'a [u8]>,
    pub(crate) days: Option<&'a [u8]>,
    pub(crate) compound: Option<&'a [u8]>,
    pub(crate) other_coverage: Option<&'a [u8]>,
}

/// The values of segment 11, pricing.
#[derive(Clone, Copy)]
pub(crate) struct Pricing<'a> {
    pub(crate) ingredient_cost: Option<&'a [u8]>,
    pub(crate) dispensing_fee: Option<&'a [u8]>,
    pub(crate) usual_charge: Option<&'a [u8]>,
    pub(crate) gross_amount: Option<&'a [u8]>,
}

/// The known values of a group.
#[derive(Clone, Copy)]
pub(crate) struct Group<'a> {
    pub(crate) claim: Claim<'a>,
    pub(crate) pricing: Pricing<'a>,
}

fn insurance_read<'a>(segment: Option<&'a [u8]>) -> Option<Insurance<'a>>
    ensures { option_map insurance_texts result ≡ insurance_of (text_of segment.entry) }
{
    let mut slots = [None; 3];
    put_values(&mut slots, &[*b"AM", *b"C2", *b"C3"], segment)?;
    let [_, cardholder, person] = slots;
    Some(Insurance { cardholder, person })
}

fn claim_read<'a>(segment: Option<&'a [u8]>) -> Option<Claim<'a>>
    ensures { option_map claim_texts result ≡ claim_of (text_of segment.entry) }
{
    let ids = [
        *b"AM", *b"EM", *b"D2", *b"E1", *b"D7", *b"E7", *b"D5", *b"D6", *b"C8",
    ];
    let mut slots = [None; 9];
    put_values(&mut slots, &ids, segment)?;
    let [
        _,
        reference_qualifier,
        reference,
        product_qualifier,
        product,
        quantity,
        days,
        compound,
        other_coverage,
    ] = slots;
    Some(Claim {
        reference_qualifier,
        reference,
        product_qualifier,
        product,
        quantity,
        days,
        compound,
        other_coverage,
    })
}

fn pricing_read<'a>(segment: Option<&'a [u8]>) -> Option<Pricing<'a>>
    ensures { option_map pricing_texts result ≡ pricing_of (text_of segment.entry) }
{
    let mut slots = [None; 5];
    put_values(
        &mut slots,
        &[*b"AM", *b"D9", *b"DC", *b"DQ", *b"DU"],
        segment,
    )?;
    let [
        _,
        ingredient_cost,
        dispensing_fee,
        usual_charge,
        gross_amount,
    ] = slots;
    Some(Pricing {
        ingredient_cost,
        dispensing_fee,
        usual_charge,
        gross_amount,
    })
}

/// The known values of a common part. None: a syntax error.
pub(crate) fn common_read<'a>(part: &'a [u8]) -> Option<Insurance<'a>>
    ensures { option_map insurance_texts result ≡ common_of part.entry.now }
{
    let mut slots = [None; 1];
    put_segments(&mut slots, &[*b"04"], part)?;
    let [segment] = slots;
    insurance_read(segment)
}

/// The known values of a group. None: a syntax error.
pub(crate) fn group_read<'a>(part: &'a [u8]) -> Option<Group<'a>>
    ensures { option_map group_texts result ≡ group_of part.entry.now }
{
    let mut slots = [None; 2];
    put_segments(&mut slots, &[*b"07", *b"11"], part)?;
    let [claim_segment, pricing_segment] = slots;
    let claim = claim_read(claim_segment)?;
    let pricing = pricing_read(pricing_segment)?;
    Some(Group { claim, pricing })
}
