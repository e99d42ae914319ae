ghost use Rattle.std.specs.Prelude.{◌≡◌, ◌≤◌, IfErr, IfNone, IfOk, IfSome, IsTrue, ◌↔◌, List, Some, length, map, slice_get};
ghost use Rattle.std.specs.List.{All, AllZip};
ghost use Rattle.rx_batch.specs.declared.detail.Detail.{Detail as DetailValue};
ghost use Rattle.rx_fields.specs.declared.limits.TheConstants.{MOST_DETAILS};
ghost use Rattle.rx_fields.specs.declared.stamp.Stamp.{Stamp as StampValue};
ghost use Rattle.rx_response.specs.Response.{response_head};
ghost use Rattle.rx_show.specs.ResponseFile.{IsResponse};
ghost use Rattle.rx_switch.specs.JoinParts.{IsNoReply, IsPicked, IsPickedFrom, join_inputs, response_texts, stamp_in};
ghost use Rattle.rx_switch.specs.JoinRefused.{IsFirstStamp, IsNextFile, IsNotJoined, IsOtherDetail};
ghost use Rattle.rx_switch.specs.Joined.{IsResponseTo, JoinGiven, PlanResponse as PlanTexts};
ghost use Rattle.rx_switch.specs.RouteParts.{IsDealt, places_at};
ghost use Rattle.rx_switch.specs.Routed.{OnePlan, Switched};
ghost use Rattle.rx_wave.specs.Jobs.{IsPlaceOf};

use crate::dealt_records::DealtRecords;
use crate::join_fault::JoinFault;
use crate::join_job::PlanResponse;
use crate::may_reply::may_reply;
use rx_batch::{Batch, Detail, Head, Kind};
use rx_d0_reply::decode_reply;
use rx_d0_values::Reply;
use rx_fields::{Lot, Stamp};
use rx_show::read_response;
use std::alloc::Global;

/// The stamp of the first plan's response file, which has this text.
pub(crate) fn stamp_of(alloc: Global, text: &[u8], batch: &Batch) -> Result<Stamp, JoinFault>
    ensures first { IfOk result (λ stamp. (own : List DetailValue)
        × IsResponse text.now (response_head batch.now.head stamp) own) }
    ensures refused { (g : JoinGiven) → (any : StampValue) → (plans : List OnePlan) → (t : PlanTexts)
        → IsNextFile g (join_inputs any plans batch.now) 0 t → t.response ≡ text.now → IfErr result (λ fault. IsNotJoined g fault) }
{
    let file = file_of(alloc, 0, text, batch)?;
    Ok(stamp_in(&file.head))
}

// The response file of the plan with this number, to this batch.
fn file_of(alloc: Global, number: usize, text: &[u8], batch: &Batch) -> Result<Batch, JoinFault>
    ensures read { IfOk result (λ file. IsResponse text.now (response_head batch.now.head (stamp_in file.head)) file.details) }
    ensures refused { (g : JoinGiven) → (any : StampValue) → (plans : List OnePlan) → (t : PlanTexts)
        → IsNextFile g (join_inputs any plans batch.now) number t → t.response ≡ text.now
        → IfErr result (λ fault. IsNotJoined g fault) }
{
    let file = read_file(alloc, number, text)?;
    if is_sent_back(&file.head, &batch.head) {
        Ok(file)
    } else {
        Err(JoinFault::OtherBatch(number))
    }
}

// What the text of the plan with this number is as a response file.
fn read_file(alloc: Global, number: usize, text: &[u8]) -> Result<Batch, JoinFault>
    ensures read { IfOk result (λ file. IsResponse text.now file.head file.details) }
    ensures refused { (g : JoinGiven) → (x : Switched) → (t : PlanTexts) → IsNextFile g x number t → t.response ≡ text.now
        → IfErr result (λ fault. IsNotJoined g fault) }
{
    match read_response(alloc, text) {
        Err(refused) => Err(JoinFault::of_response(number, refused)),
        Ok(response) => Ok(response),
    }
}

// The stamp in the header of a response file.
fn stamp_in(head: &Head) -> Stamp
    ensures { result ≡ stamp_in head.now }
{
    Stamp {
        date: head.lot.created(),
        time: head.time,
    }
}

// Whether a header is a batch's, sent back.
#[tactic(auto, using(crate::proofs::JoinDecided::head_decides))]
fn is_sent_back(head: &Head, asked: &Head) -> bool
    ensures { IsTrue result ↔ (head.now ≡ response_head asked.now (stamp_in head.now)) }
{
    let meant = sent_back(asked, stamp_in(head));
    *head == meant
}

// A batch's header, as it is sent back.
fn sent_back(head: &Head, stamp: Stamp) -> Head
    ensures { result ≡ response_head head.now stamp }
{
    Head {
        receiver: head.sender,
        sender: head.receiver,
        file: head.file,
        kind: Kind::Response,
        time: stamp.time,
        lot: Lot::new(head.lot.number(), stamp.date).unwrap(),
    }
}

/// The replies to the records of the plan with this number, from its response file.
pub(crate) fn replies_in(
    alloc: Global,
    number: usize,
    plan: &PlanResponse<'_>,
    batch: &Batch,
    dealt: &DealtRecords,
) -> Result<Vec<Reply>, JoinFault>
    requires dealt { (x : Switched) × (x.details ≡ batch.now.details) × IsDealt x dealt.now }
    requires few { length batch.now.details ≤ MOST_DETAILS }
    ensures picked { IfOk result (λ picked.
        IsPickedFrom batch.now dealt.now number (response_texts plan.now).response picked.items) }
    ensures refused { (g : JoinGiven) → (plans : List OnePlan) → (p : OnePlan)
        → IsNextFile g (join_inputs dealt.now.stamp plans batch.now) number (response_texts plan.now)
        → slice_get plans number ≡ Some p → IsFirstStamp g batch.now.head dealt.now.stamp
        → IsDealt (join_inputs dealt.now.stamp plans batch.now) dealt.now → IfErr result (λ fault. IsNotJoined g fault) }
{
    let file = checked_file(alloc, number, plan.response, batch, dealt.stamp)?;
    replies_of_plan(alloc, number, dealt, file.details.as_slice())
}

// The response file of the plan with this number, which has this stamp and the references of the batch.
fn checked_file(
    alloc: Global,
    number: usize,
    text: &[u8],
    batch: &Batch,
    stamp: Stamp,
) -> Result<Batch, JoinFault>
    ensures read { IfOk result (λ file. IsResponseTo batch.now.head batch.now.details stamp text.now file.details) }
    ensures refused { (g : JoinGiven) → (plans : List OnePlan) → (t : PlanTexts)
        → IsNextFile g (join_inputs stamp plans batch.now) number t → t.response ≡ text.now
        → IsFirstStamp g batch.now.head stamp → IfErr result (λ fault. IsNotJoined g fault) }
{
    let file = file_of(alloc, number, text, batch)?;
    if !is_stamp(stamp_in(&file.head), stamp) {
        return Err(JoinFault::OtherStamp(number));
    }
    match other_detail(file.details.as_slice(), batch.details.as_slice()) {
        Some(place) => Err(JoinFault::OtherDetail(number, place)),
        None => Ok(file),
    }
}

// Whether two stamps are one.
#[tactic(auto, using(crate::proofs::JoinDecided::stamp_decides))]
fn is_stamp(its: Stamp, stamp: Stamp) -> bool
    ensures { IsTrue result ↔ (its ≡ stamp) }
{
    its == stamp
}

// The first place where the references differ, or one of the two details isn't there.
#[tactic(auto, using(crate::proofs::JoinDetails::same_more, crate::proofs::JoinDetails::other_here, crate::proofs::JoinDetails::past_own))]
fn other_detail(own: &[Detail], details: &[Detail]) -> Option<usize>
    ensures none { IfNone result (map (λ d. d.reference) own.now ≡ map (λ d. d.reference) details.now) }
    ensures some { IfSome result (IsOtherDetail own.now details.now) }
{
    for (before, detail) in details.iter().enumerate() {
        if before >= own.len() {
            return Some(before + 1);
        }
        if !is_named_as(&own[before], detail) {
            return Some(before + 1);
        }
    }
    if own.len() > details.len() {
        return Some(details.len() + 1);
    }
    None
}

// Whether two details have one reference.
fn is_named_as(own: &Detail, detail: &Detail) -> bool
    ensures { IsTrue result ↔ (own.now.reference ≡ detail.now.reference) }
{
    own.reference == detail.reference
}

// The replies to the records of the plan with this number, from the details of its response file.
fn replies_of_plan(
    alloc: Global,
    number: usize,
    dealt: &DealtRecords,
    own: &[Detail],
) -> Result<Vec<Reply>, JoinFault>
    requires places { All (IsPlaceOf (length dealt.now.asked.items)) (places_at dealt.now number) }
    requires long { length own.now ≡ length dealt.now.asked.items }
    requires few { length own.now ≤ MOST_DETAILS }
    ensures picked { IfOk result (λ picked.
        AllZip (IsPicked dealt.now.lot dealt.now.asked.items own.now) (places_at dealt.now number) picked.items) }
    ensures refused { (g : JoinGiven) → (x : Switched) → (t : PlanTexts) → (p : OnePlan) → IsNextFile g x number t
        → slice_get x.plans number ≡ Some p → IsResponseTo x.head x.details x.stamp t.response own.now → IsDealt x dealt.now
        → IfErr result (λ fault. IsNotJoined g fault) }
{
    let places = dealt.places_of(number);
    let mut replies = Vec::with_capacity(alloc, places.len())?;
    for place in places {
        let reply = reply_at(alloc, number, dealt, own, *place)?;
        replies.push(reply)?;
    }
    Ok(replies)
}

// The reply that the detail at a place holds, which the record there may get.
fn reply_at(
    alloc: Global,
    number: usize,
    dealt: &DealtRecords,
    own: &[Detail],
    place: usize,
) -> Result<Reply, JoinFault>
    requires place { IsPlaceOf (length dealt.now.asked.items) place }
    requires long { length own.now ≡ length dealt.now.asked.items }
    requires few { length own.now ≤ MOST_DETAILS }
    ensures picked { IfOk result (λ reply. IsPicked dealt.now.lot dealt.now.asked.items own.now place reply) }
    ensures refused { IfErr result (IsNoReply number dealt.now.lot dealt.now.asked.items own.now place) }
{
    let reply = match decode_reply(alloc, own[place - 1].text.bytes()) {
        Ok(reply) => reply,
        Err(refused) => return Err(JoinFault::of_reply(number, place, refused)),
    };
    if may_reply(dealt.lot, place as u64, &dealt.asked[place - 1], &reply) {
        Ok(reply)
    } else {
        Err(JoinFault::OtherReply(number, place))
    }
}
