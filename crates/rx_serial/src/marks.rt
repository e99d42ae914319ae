ghost use Rattle.std.specs.Prelude.{◌≡◌, ◌<◌, length};
ghost use Rattle.rx_serial.specs.Fills.{has_course_mark, has_mark, has_member_mark, mark_of};

use crate::fill::{Course, Entry};
use rx_fields::Memory;
use std::alloc::Global;

// How many marks of courses there are for each fill.
const MARKS: usize = 16;

/// Marks for what is billed: which members, by their places; and which courses. Few other courses have a mark.
#[derive(Drop)]
pub(crate) struct Marks {
    pub(crate) members: Vec<bool>,
    pub(crate) courses: Vec<bool>,
}

/// Marks for these entries' fills, of this many members.
pub(crate) fn marks_of(alloc: Global, members: usize, entries: &[Entry]) -> Result<Marks, Memory> {
    let mut members = vec![in alloc; false; members]?;
    let mut courses = vec![in alloc; false; entries.len().saturating_mul(MARKS)]?;
    let count = courses.len();
    for entry in entries {
        let course = entry.fill.key.course;
        if let Some(mark) = members.get_mut(course.holder) {
            *mark = true;
        }
        if count > 0 {
            if let Some(mark) = courses.get_mut(mark_of(count, &course)) {
                *mark = true;
            }
        }
    }
    Ok(Marks { members, courses })
}

impl Marks {
    /// Whether the member at a place has a mark.
    pub(crate) fn has_member(&self, holder: usize) -> bool
        ensures { result ≡ has_member_mark self.now.members.items holder }
    {
        match self.members.get(holder) {
            Some(mark) => *mark,
            None => false,
        }
    }

    /// Whether the course and its member have a mark.
    pub(crate) fn has(&self, course: &Course) -> bool
        ensures { result ≡ has_mark self.now course.now }
    {
        self.has_member(course.holder) && has_course_mark(&self.courses, course)
    }
}

// Whether the course has a mark.
fn has_course_mark(marks: &[bool], course: &Course) -> bool
    ensures { result ≡ has_course_mark marks.now course.now }
{
    if marks.is_empty() {
        return false;
    }
    marks[mark_of(marks.len(), course)]
}

// The place of a course's mark among this many.
fn mark_of(count: usize, course: &Course) -> usize
    requires { 0 < count }
    ensures value { result ≡ mark_of count course.now }
    ensures within { result < count }
{
    let mixed = (course.holder as u64).wrapping_mul(11_400_714_819_323_198_485);
    (mixed.wrapping_add(course.product.number()) % count as u64) as usize
}
