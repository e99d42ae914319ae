//! Which fault bytes have that are no reply.

ghost use Rattle.std.specs.Prelude.{◌≡◌, length};
ghost use Rattle.std.specs.List.{list_all, enumerate_from};
ghost use Rattle.rx_text.specs.declared.separators.TheConstants.{GROUP, SEGMENT};
ghost use Rattle.rx_text.specs.Bytes.{cut};
ghost use Rattle.rx_d0_reply.specs.Fault.{is_header, is_labelled, is_group, are_groups, fault_of};

use crate::fault::ReplyFault;
use crate::layout::HEADER;
use rx_text::{GROUP, SEGMENT, all_printable};

fn is_header(bytes: &[u8]) -> bool
    ensures { result ≡ is_header bytes.now }
{
    if bytes.len() < HEADER || !all_printable(&bytes[..HEADER]) {
        return false;
    }
    let is_count = bytes[4] >= b'1' && bytes[4] <= b'4';
    let is_status = bytes[5] == b'A' || bytes[5] == b'R';
    is_count && is_status
}

// The label of that place, from 0, stands before the segment's fields.
fn is_labelled(place: usize, segment: &[u8]) -> bool
    ensures { result ≡ is_labelled place segment.now }
{
    match place {
        0 => segment.starts_with(b"\x1CAM21"),
        1 => segment.starts_with(b"\x1CAM22"),
        2 => segment.starts_with(b"\x1CAM23"),
        _ => false,
    }
}

fn are_labelled(segments: &[u8]) -> bool
    ensures { result ≡ list_all (λ p. is_labelled p.0 p.1) (enumerate_from 0 (cut SEGMENT segments.now)) }
{
    segments
        .split(|b| *b == SEGMENT)
        .enumerate()
        .all(|(place, segment)| is_labelled(place, segment))
}

fn is_group(group: &[u8]) -> bool
    ensures { result ≡ is_group group.now }
{
    match group {
        [SEGMENT, segments @ ..] => are_labelled(segments),
        _ => false,
    }
}

fn group_count(groups: &[u8]) -> usize
    ensures { result ≡ length (cut GROUP groups.now) }
{
    groups.split(|b| *b == GROUP).count()
}

fn are_all_groups(groups: &[u8]) -> bool
    ensures { result ≡ list_all is_group (cut GROUP groups.now) }
{
    groups.split(|b| *b == GROUP).all(|group| is_group(group))
}

fn are_groups(count: usize, bytes: &[u8]) -> bool
    ensures { result ≡ are_groups count bytes.now }
{
    match bytes {
        [GROUP, groups @ ..] => group_count(groups) == count && are_all_groups(groups),
        _ => false,
    }
}

// The fault of bytes that are no reply.
pub(crate) fn fault_of(bytes: &[u8]) -> ReplyFault
    ensures { result ≡ fault_of bytes.now }
{
    if !is_header(bytes) {
        return ReplyFault::Head;
    }
    let count = usize::from(bytes[4] - b'0');
    if are_groups(count, &bytes[HEADER..]) {
        ReplyFault::Field
    } else {
        ReplyFault::Segment
    }
}
